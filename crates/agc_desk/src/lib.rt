//! The desk: a machine that several callers ask, the history of all that they asked, and five
//! ledgers that book what each of them was told.
//!
//! A [`Desk`] gives out at most 64 shares. Each request is asked with a share, and is appended with
//! its answer to the desk's history, which exists only in proofs. What the answer adds to the
//! machine's totals is added to that share and to the desk's books. Callers in several threads ask
//! the desk under a lock ([`ask`], [`Caller`], [`work`]). When all shares are back, [`gather`]
//! returns the machine, to which the history leads, and what all callers together were told.
//!
//! Devices post pulses without the lock, on the lines of a latch whose taker the desk has. The desk
//! takes them and asks what they ask for ([`Desk::drain`], [`attend`]). When all devices are back,
//! [`settle`] returns what became of each line's pulses.
#![tactic(auto)]

mod caller;
mod column;
mod console;
mod desk;
mod drain;
mod history;
pub mod laws;
mod ledgers;
mod names;
mod settling;
mod ties;

pub use agc_latch::{Device, Latch, Line, PostSpent, Settled, Taker};
pub use agc_plan::{NoMemory, action_request, pulse_request};
pub use caller::{Caller, Held, Shared, ask, attend, work};
pub use console::{Console, Gate, OpenGate, drive};
pub use desk::{Desk, Share, Ungathered, gather};
pub use drain::Drained;
pub use history::Opened;
pub use names::{Blanks, Names, Sharing};
pub use settling::{Unsettled, settle};
pub use ties::Call;
