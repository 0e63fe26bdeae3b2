ghost use Rattle.std.specs.Prelude.{◌≡◌, is_err};

use agc_plan::{Fired, Reply, Request};
use std::marker::Model;
use thiserror::Error;

/// Why a request was not served. It then changed nothing.
#[derive(Clone, Copy, PartialEq, Eq, Debug, Error)]
pub enum Refusal {
    /// As many requests were served as the allowance says.
    #[error("refused spent")]
    Spent,
    /// The log holds as many requests as its limit says.
    #[error("refused log full")]
    LogFull,
}

/// The answer of `Machine::apply`, which alone makes one: the request, the reply to it or a
/// refusal, and the tasks that fired. It can't be copied or cloned. Contracts see these three.
#[derive(Drop)]
pub struct Answer {
    request: Request,
    result: Result<Reply, Refusal>,
    fired: Fired,
}

impl Model for Answer {
    ghost use Rattle.agc_machine.specs.Said.{Said};

    ghost Value = { Said };

    ghost view = { λ a. record { request = a.request; outcome = a.result; fired = a.fired } };
}

impl Answer {
    /// The answer to a request.
    pub(crate) fn of(request: Request, outcome: Result<Reply, Refusal>, fired: Fired) -> Answer
        ensures { result ≡ record { request = request; outcome = outcome; fired = fired } }
    {
        Answer {
            request,
            result: outcome,
            fired,
        }
    }

    /// The request that was answered.
    pub fn request(&self) -> Request
        ensures { result ≡ self.now.request }
    {
        self.request
    }

    /// Whether the request was refused.
    pub fn is_refused(&self) -> bool
        ensures { result ≡ is_err self.now.outcome }
    {
        self.result.is_err()
    }

    /// The tasks that fired, in order: none but in a tick.
    pub fn fired(&self) -> &Fired
        ensures { result.now ≡ self.now.fired }
    {
        &self.fired
    }

    /// The reply, or why there is none.
    ///
    /// # Errors
    ///
    /// The `Refusal`, where the request was not served.
    pub fn result(&self) -> Result<Reply, Refusal>
        ensures { result ≡ self.now.outcome }
    {
        self.result
    }
}
