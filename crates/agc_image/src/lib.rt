//! Erasable memory in an array of a caller's own, whatever numbers it holds: whether they are an
//! image, how they are read and written back, and which rule of lawful words they break.
#![tactic(auto)]

mod array;
mod explaining;
mod lawful;
mod rule;

pub use array::{are_words, blank_image, open, read, seven, twelve, write_all, write_back};
pub use explaining::{BrokenRule, first_broken};
pub use lawful::is_lawful;
pub use rule::Rule;
