//! A law of what runs of threads write: the contract of a function that does nothing.

ghost use Rattle.std.specs.Prelude.{◌≡◌, ℕ, List};
ghost use Rattle.agc_bench.specs.Threads.{IsRunReport};

use agc_desk::Gate;
use agc_document::Bench;

/// A law: a run's report has just one text for one end. Where two texts are reports of the bench's
/// threads, and the same machine and the same pulses are left, the texts are equal.
pub fn report_has_one_text<G: Gate>(gate: &G, bench: &Bench)
    ensures { (these those : List ℕ)
        (one : IsRunReport (λ n call answer. G.may_answer gate.now n call answer)
        (λ n call said. G.is_told gate.now n call said) bench.now these)
        (other : IsRunReport (λ n call answer. G.may_answer gate.now n call answer)
        (λ n call said. G.is_told gate.now n call said) bench.now those)
        → one.machine ≡ other.machine → one.settled ≡ other.settled → these ≡ those }
{
    let _gate = gate;
    let _workers = bench.workers();
}
