//! The statistics of a run: of its requests, of its eras, and of its jobs.
#![tactic(auto)]

mod address_statistics;
mod addresses;
mod computed_by_job;
mod era;
mod era_time;
mod job_statistics;
mod jobs;
mod live_jobs;
mod occupancy;
mod run_statistics;
mod running;

pub use address_statistics::{AddressStatistics, MeanTimes};
pub use era::{EndedEra, EraBoundary, EraStatistics, Peak};
pub use era_time::EraTime;
pub use job_statistics::JobStatistics;
pub use jobs::job_statistics_of;
pub use live_jobs::Hundredths;
pub use run_statistics::{FirstAlarm, RunPeaks, RunStatistics};
pub use running::{RunObserver, peaks_of, run_to_end, statistics_of};
