ghost use Rattle.std.specs.Prelude.{◌≡◌, ℕ, ◌<◌, ◌≤◌, ◌⊎◌, Bool, false, is_some, true, length};
ghost use Rattle.std.specs.Prelude.{IfSome, take};
ghost use Rattle.agc_plan.specs.declared.request.Request.{Request};
ghost use Rattle.agc_machine.specs.Said.{Said};
ghost use Rattle.agc_desk.specs.Runs.{Reached};

use agc_machine::Answer;
use agc_plan::Request;
use std::sync::Wait;

/// Who is asked.
pub trait Console {
    /// How a request and its answer lead from a state to the next.
    ghost leads: { Self → Request → Said → Self → Type 0 };

    /// Asks one request. It may wait.
    fn ask(&mut self, rt: &impl Wait, request: Request) -> Answer
        ensures asked { result.request ≡ request }
        ensures led { leads self.old request result self.new };
}

/// A gate is asked before each call of a worker, and is given the answer after it. Workers and
/// calls are numbered from 0.
pub trait Gate {
    /// Whether it may let the worker go on with a call, or may not, by worker and call.
    ghost may_answer: { Self → ℕ → ℕ → Bool → Type 0 };

    /// The fact that is known of a call once the gate was given this answer, by worker, call and
    /// answer; none, if an `impl` doesn't say.
    ghost is_told: { Self → ℕ → ℕ → Said → Type 0 } = { λ _ _ _ _. Unit {0} };

    /// With what a worker goes on. It need not be a type that may be dropped, so that whoever has
    /// one hands it to `after`.
    type Pass;

    /// For which call a pass may be, by worker, call and request; for any, where an `impl` doesn't
    /// say.
    ghost is_for: { Self.Pass → ℕ → ℕ → Request → Type 0 } = { λ _ _ _ _. Unit {0} };

    /// With what the worker goes on with this call, which asks for this; none ends it there.
    fn before(&self, worker: usize, call: usize, request: &Request) -> Option<Self::Pass>
        ensures goes { may_answer self.now worker call (is_some result) }
        ensures pass { IfSome result (λ pass. is_for pass worker call request.now) };

    /// The call of this pass was answered so: the pass may be for this worker, this call and the
    /// answer's request.
    fn after(&self, worker: usize, call: usize, pass: Self::Pass, answer: Answer)
        requires { is_for pass worker call answer.request }
        ensures { is_told self.now worker call answer };
}

/// The gate that stops no call.
#[derive(Clone, Copy)]
pub struct OpenGate;

impl Gate for OpenGate {
    ghost may_answer = { λ _ _ _ goes. goes ≡ true };

    type Pass = ();

    fn before(&self, _worker: usize, _call: usize, _request: &Request) -> Option<()> {
        Some(())
    }

    fn after(&self, _worker: usize, _call: usize, _pass: (), _answer: Answer) {}
}

/// With what the gate lets a worker go on with a call.
fn pass_of<G: Gate>(gate: &G, worker: usize, call: usize, request: &Request) -> Option<G::Pass>
    ensures goes { G.may_answer gate.now worker call (is_some result) }
    ensures pass { IfSome result (λ pass. G.is_for pass worker call request.now) }
{
    gate.before(worker, call, request)
}

/// Asks the requests in order, and answers how many it asked: all of them, or those before the
/// first call with which the gate let it go on no more. The gate is told each call with its answer,
/// and `worker` as the worker's number. It waits as its console and its gate do.
pub fn drive<C: Console, G: Gate, W: Wait>(
    rt: &W,
    console: &mut C,
    worker: usize,
    requests: &[Request],
    gate: &G,
) -> usize
    ensures count { result ≤ length requests.now }
    ensures reached { Reached C.leads (λ call said. G.is_told gate.now worker call said) 0
        console.old (take result requests.now) console.new }
    ensures passed { (call : ℕ) → call < result → G.may_answer gate.now worker call true }
    ensures whole { (result ≡ length requests.now) ⊎ G.may_answer gate.now worker result false }
{
    for (call, request) in requests.iter().enumerate() {
        let Some(pass) = pass_of(gate, worker, call, request) else {
            return call;
        };
        let answer = console.ask(rt, *request);
        gate.after(worker, call, pass, answer);
    }
    requests.len()
}
