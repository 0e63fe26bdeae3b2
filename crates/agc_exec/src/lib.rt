//! The Executive's core sets, VAC areas and NEWJOB, on the erasable words: which job is in which
//! set, and what each request does to them. Every call except `clear` requires lawful words; test
//! an image from outside first. Source: the listings' EXECUTIVE section.
#![tactic(auto)]

mod area;
mod change;
mod clearing;
mod core_set;
mod establish;
mod lawful;
mod leave;
mod newjob;
mod search;
mod seats;
mod wake;

pub use change::{change_job, prio_change, running, store};
pub use clearing::clear;
pub use core_set::{LOC, MINUS_ZERO, PRIORITY, PRIORITY_UNIT, SIGN};
pub use establish::{findvac, novac};
pub use lawful::is_lawful;
pub use leave::{end_of_job, job_sleep};
pub use seats::{Seat, job_at, named_job};
pub use wake::job_wake;
