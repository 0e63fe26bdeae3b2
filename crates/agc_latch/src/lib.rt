//! The latch: three words on which devices post pulses without waiting for whoever holds the
//! machine.
//!
//! A [`Latch`] has a word for each [`Line`]: the timer's, the keyboard's and the radar's. A
//! [`Device`] posts a pulse by one atomic step, and the one [`Taker`] takes what was posted.
//! [`Accounts`] hold the taker: they count per line what is applied and what is owed, and in the
//! end, once all devices are back, what was posted.
#![tactic(auto)]

mod accounts;
mod device;
mod latch;
mod laws;
mod steps;
mod taker;
mod views;

pub use accounts::{Accounts, Settled, Unjoined};
pub use agc_plan::{Line, NoMemory};
pub use device::{Device, PostSpent};
pub use latch::Latch;
pub use laws::steps_keep_the_rule;
pub use taker::Taker;
