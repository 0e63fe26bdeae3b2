//! How much each job has computed since it was established or roused.
ghost use Rattle.agc_exec.specs.Image.{IsLawfulWords};

use crate::live_jobs::MOST;
use agc_clock::Clock;
use agc_exec::running;
use agc_word::Erasable;

/// The hundredths of a centisecond that each job has computed since it was established or roused,
/// by its number.
#[derive(Clone, Copy)]
pub(crate) struct ComputedByJob {
    by_job: [u64; MOST],
}

impl ComputedByJob {
    /// No computing yet.
    pub(crate) fn new() -> ComputedByJob {
        ComputedByJob { by_job: [0; MOST] }
    }

    /// Adds what the running job has computed.
    pub(crate) fn pass(&mut self, words: &Erasable, computed: u32)
        requires { IsLawfulWords words.now }
    {
        if computed == 0 {
            return;
        }
        if let Some(number) = running(words) {
            let place = usize::from(number.get()).wrapping_sub(1);
            if let Some(by_job) = self.by_job.get_mut(place) {
                *by_job = by_job.saturating_add(u64::from(computed));
            }
        }
    }

    /// Notes that a request was served: a job that its clock has given nothing since has ended, or
    /// begins anew. Without a clock no computing is known.
    pub(crate) fn keep(&mut self, clock: Option<&Clock>) {
        let Some(clock) = clock else {
            return;
        };
        let given = clock.given();
        for place in 0..MOST {
            if given[place] == 0 {
                self.by_job[place] = 0;
            }
        }
    }

    /// The computing of all jobs.
    pub(crate) fn sum(&self) -> u64 {
        let mut sum: u64 = 0;
        for computed in self.by_job {
            sum = sum.saturating_add(computed);
        }
        sum
    }
}
