//! Words of fifteen bits in ones' complement, and the erasable memory that is made of them.
#![tactic(auto)]

mod erasable;
pub mod layout;
mod sets;
mod word;

pub use erasable::Erasable;
pub use sets::Sets;
pub use word::Word;
