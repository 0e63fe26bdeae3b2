ghost use Rattle.std.specs.Prelude.{◌≡◌, ◌++◌, ◌+◌, ◌≤◌, length};
ghost use Rattle.agc_machine.specs.Machines.{after_all};
ghost use Rattle.agc_desk.specs.Draining.{answers_to};
ghost use Rattle.agc_desk.specs.History.{with_heard};
ghost use Rattle.agc_bench.specs.Sharing.{AsksOwn, AsksPulses, first_calls};
ghost use Rattle.agc_bench.specs.Threads.{threads_of};
ghost use Rattle.agc_bench.specs.Steps.{thread_at};

use crate::hall::Hall;
use agc_desk::{Desk, Gate, Names, Share, Shared, Sharing, attend, work};
use agc_document::Bench;
use agc_plan::Request;
use std::sync::Wait;

/// Attends as often as the bench says.
fn attend_times<N: Sharing, G, W: Wait>(
    hall: &Hall<'_, W, G>,
    shared: &Shared<N>,
    share: Share<N>,
) -> Share<N>
    requires { hall.now.latch.now ≡ N.latch }
    ensures { AsksPulses hall.now.bench.now.attends share result }
{
    let mut share = share;
    for _time in 0..hall.bench.attends() {
        attend(hall.rt, shared, hall.latch, &mut share);
    }
    share
}

/// Asks a whole script of a desk that is under no lock, with the share of number 0.
pub(crate) fn ask_script<N: Names>(desk: &mut Desk<N>, share: &mut Share<N>, script: &[Request])
    requires { share.old.number ≡ 0 }
    ensures machine { desk.new.machine ≡ after_all desk.old.machine script.now }
    ensures history { desk.new.history ≡ desk.old.history ++ first_calls
        (answers_to desk.old.machine script.now) }
    ensures heard { share.new ≡ with_heard
        (first_calls (answers_to desk.old.machine script.now)) share.old }
    ensures given { desk.new.given ≡ desk.old.given }
    ensures lines { desk.new.lines ≡ desk.old.lines }
{
    for request in script {
        desk.serve(share, *request);
    }
}

/// How many threads ask: one for each worker of the bench, and one that attends.
pub(crate) fn count_threads(bench: &Bench) -> usize
    ensures count { result ≡ length (threads_of bench.now) }
    ensures most { result ≤ 33 }
{
    bench.workers().len() + 1
}

/// Asks what the thread of this number asks: the workers' requests come first, each as far as the
/// gate lets it; the last thread attends as often as the bench says.
pub(crate) fn ask_own<N: Sharing, G: Gate, W: Wait>(
    hall: &Hall<'_, W, G>,
    shared: &Shared<N>,
    share: Share<N>,
    thread: usize,
) -> Share<N>
    requires { hall.now.latch.now ≡ N.latch }
    ensures { AsksOwn (λ n call answer. G.may_answer hall.now.gate.now n call answer)
        (λ n call said. G.is_told hall.now.gate.now n call said)
        (thread_at hall.now.bench.now thread) share result }
{
    match hall.bench.workers().get(thread) {
        Some(requests) => {
            let requests = requests.as_slice();
            work(hall.rt, shared, share, thread, requests, hall.gate)
        }
        None => attend_times(hall, shared, share),
    }
}
