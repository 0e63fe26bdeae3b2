//! Runs that are pulled, request by request: of a script, of a bench, or of a scenario; with an
//! event for each request, if they are watched.
#![tactic(auto)]

mod event;
pub mod laws;
mod listings;
mod observed_run;
mod origins;
mod pending_requests;
mod run;
mod scene;
mod subject;

pub use event::Event;
pub use listings::{Listing, Listings};
pub use observed_run::ObservedRun;
pub use origins::{Origin, Origins, Since};
pub use pending_requests::PendingRequests;
pub use run::Run;
pub use scene::{Scene, seats_of};
pub use subject::Subject;
