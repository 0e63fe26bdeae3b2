ghost use Rattle.std.specs.Prelude.{◌≡◌, ◌<◌, ℕ, IfOk, IfErr, Some, length, nat_eq};
ghost use Rattle.std.specs.Prelude.{slice_index_or, vec_len};
ghost use Rattle.agc_latch.specs.Ends.{new_device, new_taker};
ghost use Rattle.agc_desk.specs.Draining.{answers_to};
ghost use Rattle.agc_desk.specs.Opening.{names_of};
ghost use Rattle.agc_session.specs.Runs.{bench_machine};
ghost use Rattle.agc_bench.specs.Sharing.{AreReady, AsksOwn, HaveAsked, HaveRun, first_calls};
ghost use Rattle.agc_bench.specs.Sharing.{lent_to};
ghost use Rattle.agc_bench.specs.Sharing.{spent_device, spent_devices};
ghost use Rattle.agc_bench.specs.Sharing.{IsPledge, IsPosts, IsToldRun, new_devices};
ghost use Rattle.agc_bench.specs.Threads.{AreSettled, WritesRun, askers_of};
ghost use Rattle.agc_bench.specs.Steps.{IsEarly, WritesSettled, thread_at};

use crate::asker::ask_own;
use crate::closing::finish;
use crate::hall::Hall;
use crate::opening::{RunParts, open};
use crate::poster::post_all;
use agc_desk::{
    Blanks, Device, Gate, Held, Latch, Line, Names, Settled, Share, Shared, Sharing, Taker,
};
use agc_document::Bench;
use agc_machine::{Machine, Totals};
use agc_session::{RunFault, machine_of};
use agc_text::{Output, report, report_pulses};
use std::alloc::Global;
use std::io::Write;
use std::marker::Brand;
use std::snapshot::Snapshot;
use std::sync::{Mutex, Wait};
use std::thread;
use std::thread::{Promise, PromisedHandle, Scope, Threads};

/// The promise of a thread for its share: it makes its own requests, through this gate.
#[derive(Drop)]
struct Pledge<'b, 'g, N: Names, G: Gate> {
    start: Snapshot<Share<N>>,
    bench: &'b Bench,
    thread: usize,
    gate: &'g G,
}

impl<'b, 'g, N: Names, G: Gate> Promise<Share<N>> for Pledge<'b, 'g, N, G> {
    ghost kept_by = { λ pledge told. AsksOwn
        (λ n call answer. G.may_answer pledge.gate.now n call answer)
        (λ n call said. G.is_told pledge.gate.now n call said)
        (thread_at pledge.bench.now pledge.thread) pledge.start.value told };
}

/// The promise of a device's thread: it posts all pulses of its device, on its line.
#[derive(Drop)]
struct Posts<'l> {
    latch: &'l Latch,
    planned: (Line, u32),
}

impl<'l> Promise<Device> for Posts<'l> {
    ghost kept_by = { λ pledge device. device ≡ spent_device pledge.latch.now pledge.planned };
}

/// Starts a thread for each share, which asks with it what is its own: the workers' first, and then
/// one that attends.
fn start_askers<'s, E, N: Sharing + Send + Sync, G: Gate + Sync, W: Wait + Sync>(
    scope: &Scope<'s, E>,
    alloc: Global,
    hall: &'s Hall<'s, W, G>,
    shared: &'s Shared<N>,
    shares: Vec<Share<N>>,
) -> Result<Vec<PromisedHandle<Share<N>, Pledge<'s, 's, N, G>>>, RunFault>
    requires latch { hall.now.latch.now ≡ N.latch }
    ensures len { IfOk result (λ v. vec_len v ≡ vec_len shares) }
    ensures each { IfOk result (λ v. (k : ℕ) (d : _) → k < vec_len v
        → let p = (slice_index_or v.items k d).promise in
        IsPledge hall.now.bench.now shares.items hall.now.gate.now k p.start.value p.bench.now
        p.thread p.gate.now) }
    ensures early { IfErr result (λ fault. IsEarly fault) }
{
    let mut running = Vec::new(alloc);
    for share in shares {
        let thread = running.len();
        let pledge = Pledge {
            start: Snapshot::of(&share),
            bench: hall.bench,
            thread,
            gate: hall.gate,
        };
        let own = move || -> Share<N>
            requires { hall.now.latch.now ≡ N.latch }
            ensures { AsksOwn (λ n call answer. G.may_answer hall.entry.now.gate.now n call answer)
                (λ n call said. G.is_told hall.entry.now.gate.now n call said)
                (thread_at hall.entry.now.bench.now thread) share result }
        { ask_own(hall, shared, share, thread) };
        let asking = scope.spawn_with(pledge, own)?;
        running.push(asking)?;
    }
    Ok(running)
}

/// Has all workers ask at once, and one more thread attend, each in a thread of its own with the
/// share at its place, and joins them.
fn ask_at_once<N: Sharing + Send + Sync, G: Gate + Sync, W: Threads + Wait + Sync>(
    alloc: Global,
    hall: &Hall<'_, W, G>,
    shared: &Shared<N>,
    shares: Vec<Share<N>>,
) -> Result<Vec<Share<N>>, RunFault>
    requires latch { hall.now.latch.now ≡ N.latch }
    ensures asked { IfOk result (λ v. HaveAsked
        (λ n call answer. G.may_answer hall.now.gate.now n call answer)
        (λ n call said. G.is_told hall.now.gate.now n call said) hall.now.bench.now
        shares.items v.items) }
    ensures early { IfErr result (λ fault. IsEarly fault) }
{
    thread::scope(
        thread::scope_env(),
        hall.rt,
        move |scope| -> Result<Vec<Share<N>>, RunFault>
            requires latch { hall.now.latch.now ≡ N.latch }
            ensures asked { IfOk result (λ v. HaveAsked
                (λ n call answer. G.may_answer hall.entry.now.gate.now n call answer)
                (λ n call said. G.is_told hall.entry.now.gate.now n call said)
                hall.entry.now.bench.now shares.items v.items) }
            ensures early { IfErr result (λ fault. IsEarly fault) }
        {
            let running = start_askers(scope, alloc, hall, shared, shares)?;
            match thread::join_promised(hall.rt, running) {
                Ok(back) => Ok(back),
                Err(_failed) => Err(RunFault::NoMemory),
            }
        },
    )
}

/// Starts a thread for each device of a bench, which posts its pulses on its line.
fn start_posters<'s, E, G, W>(
    scope: &Scope<'s, E>,
    alloc: Global,
    hall: &'s Hall<'s, W, G>,
    devices: Vec<Device>,
) -> Result<Vec<PromisedHandle<Device, Posts<'s>>>, RunFault>
    requires devices { devices.items ≡ new_devices hall.now.latch.now hall.now.bench.now }
    ensures len { IfOk result (λ v. vec_len v ≡ length hall.now.bench.now.devices) }
    ensures each { IfOk result (λ v. (k : ℕ) (d : _) → k < vec_len v
        → let p = (slice_index_or v.items k d).promise in
        IsPosts hall.now.latch.now hall.now.bench.now k p.latch.now p.planned) }
    ensures early { IfErr result (λ fault. IsEarly fault) }
{
    let latch = hall.latch;
    let mut posting = Vec::new(alloc);
    for device in devices {
        let planned = hall.bench.devices()[posting.len()];
        let pledge = Posts { latch, planned };
        let own = move || -> Device
            requires { device ≡ new_device latch.now planned.1 }
            ensures { result ≡ spent_device latch.entry.now planned }
        { post_all(latch, device, planned) };
        let poster = scope.spawn_with(pledge, own)?;
        posting.push(poster)?;
    }
    Ok(posting)
}

/// Has all devices post at once, each in a thread of its own, while the workers ask and one more
/// thread attends, and joins them all.
fn run_at_once<N: Sharing + Send + Sync, G: Gate + Sync, W: Threads + Wait + Sync>(
    alloc: Global,
    hall: &Hall<'_, W, G>,
    shared: &Shared<N>,
    shares: Vec<Share<N>>,
    devices: Vec<Device>,
) -> Result<(Vec<Share<N>>, Vec<Device>), RunFault>
    requires latch { hall.now.latch.now ≡ N.latch }
    requires devices { devices.items ≡ new_devices hall.now.latch.now hall.now.bench.now }
    ensures asked { IfOk result (λ r. HaveAsked
        (λ n call answer. G.may_answer hall.now.gate.now n call answer)
        (λ n call said. G.is_told hall.now.gate.now n call said) hall.now.bench.now
        shares.items r.0.items) }
    ensures devices { IfOk result
        (λ r. r.1.items ≡ spent_devices hall.now.latch.now hall.now.bench.now) }
    ensures early { IfErr result (λ fault. IsEarly fault) }
{
    thread::scope(
        thread::scope_env(),
        hall.rt,
        move |scope| -> Result<(Vec<Share<N>>, Vec<Device>), RunFault>
            requires latch { hall.now.latch.now ≡ N.latch }
            requires devices { devices.items ≡ new_devices hall.now.latch.now hall.now.bench.now }
            ensures asked { IfOk result (λ r. HaveAsked
                (λ n call answer. G.may_answer hall.entry.now.gate.now n call answer)
                (λ n call said. G.is_told hall.entry.now.gate.now n call said)
                hall.entry.now.bench.now shares.items r.0.items) }
            ensures devices { IfOk result (λ r. r.1.items
                ≡ spent_devices hall.entry.now.latch.now hall.entry.now.bench.now) }
            ensures early { IfErr result (λ fault. IsEarly fault) }
        {
            let posting = start_posters(scope, alloc, hall, devices)?;
            let back = ask_at_once(alloc, hall, shared, shares)?;
            match thread::join_promised(hall.rt, posting) {
                Ok(devices) => Ok((back, devices)),
                Err(_failed) => Err(RunFault::NoMemory),
            }
        },
    )
}

/// Has all threads of a run do what is theirs, with the desk under a lock, until all have ended.
fn run_locked<N: Sharing + Send + Sync, G: Gate + Sync, W: Threads + Wait + Sync>(
    alloc: Global,
    hall: &Hall<'_, W, G>,
    parts: RunParts<N>,
) -> Result<RunParts<N>, RunFault>
    requires latch { hall.now.latch.now ≡ N.latch }
    requires ready { AreReady N.first hall.now.bench.now hall.now.latch.now parts.first
        parts.shares.items parts.devices.items }
    ensures run { IfOk result
        (λ p. HaveRun (λ n call answer. G.may_answer hall.now.gate.now n call answer)
        (λ n call said. G.is_told hall.now.gate.now n call said) N.first hall.now.bench.now
        hall.now.latch.now p.first p.shares.items p.devices.items) }
    ensures early { IfErr result (λ fault. IsEarly fault) }
{
    let RunParts {
        held,
        first,
        shares,
        devices,
    } = parts;
    let shared: Shared<N> = Mutex::new(held);
    match run_at_once(alloc, hall, &shared, shares, devices) {
        Ok((shares, devices)) => Ok(RunParts {
            held: shared.into_inner(),
            first,
            shares,
            devices,
        }),
        Err(fault) => {
            drop(first);
            drop(shared);
            Err(fault)
        }
    }
}

/// The beginnings of a run of threads: a machine, the brand of its desk, and a latch with its
/// taker.
#[derive(Drop)]
struct Outfit {
    machine: Machine,
    blanks: Blanks,
    latch: Latch,
    taker: Taker,
}

/// Runs a bench's machine with threads: the script is asked, all threads do what is theirs, and
/// when they have ended the caller attends, settles and gathers.
fn gather_report<N: Sharing + Send + Sync, G: Gate + Sync, W: Threads + Wait + Sync>(
    rt: &W,
    alloc: Global,
    outfit: Outfit,
    bench: &Bench,
    gate: &G,
) -> Result<(Machine, Totals, Settled), RunFault>
    requires names { names_of outfit.blanks ≡ N.names }
    requires first { outfit.machine ≡ N.first }
    requires bench { N.first ≡ bench_machine bench.now }
    requires shares { (given : ℕ) → N.may_share given ≡ nat_eq given
        (length (askers_of bench.now)) }
    requires begun { N.begun ≡ first_calls (answers_to N.first bench.now.script) }
    requires taker { outfit.taker ≡ new_taker outfit.latch }
    requires latch { outfit.latch ≡ N.latch }
    requires lent { N.lent ≡ Some (lent_to outfit.latch bench.now) }
    ensures run { IfOk result (λ r. IsToldRun (λ n call answer. G.may_answer gate.now n call answer)
        (λ n call said. G.is_told gate.now n call said) bench.now r.0 r.2) }
    ensures totals { IfOk result (λ r. r.1 ≡ r.0.totals) }
    ensures pulses { IfOk result (λ r. AreSettled bench.now r.2) }
    ensures early { IfErr result (λ fault. IsEarly fault) }
{
    let Outfit {
        machine,
        blanks,
        latch,
        taker,
    } = outfit;
    let ready = open::<N>(alloc, machine, blanks, &latch, taker, bench)?;
    let hall = Hall {
        rt,
        latch: &latch,
        bench,
        gate,
    };
    let ended = run_locked(alloc, &hall, ready)?;
    let (machine, totals, settled) = finish(ended, latch)?;
    Ok((machine, totals, settled))
}

/// Writes the report of a run, and then the lines of what became of its pulses.
fn report_run<W: Write>(
    machine: &Machine,
    totals: &Totals,
    settled: &Settled,
    writer: &mut W,
) -> Result<(), Output>
    ensures { WritesSettled (W.contents writer.old)
        (W.contents writer.new) machine.now totals.now settled.now result }
{
    report(machine.sets(), &machine.words(), totals, writer)?;
    report_pulses(&settled.posted, &settled.applied, &settled.owed, writer)
}

/// Runs a bench with threads: its machine is asked for the requests of the script, and then all
/// workers and devices start at once, each in a thread of its own. A worker asks under a lock, and
/// passes the gate before and after each call, under its number in the order of the bench from 0;
/// the gate is given the answer of each call. A device posts its pulses on its line without the
/// lock, and asks nothing; one more thread attends to the pulses as often as the bench says. When
/// all have ended, the caller attends once more and settles, the shares are gathered, and the
/// report is written: of the machine that some order of all these requests reaches, in which each
/// worker's requests keep their order. Then come the lines that say how many pulses were posted,
/// how many of these were applied, and how many are owed. The writer is not flushed. It may wait
/// for the lock and for the threads.
///
/// # Errors
///
/// `NoMemory`, and `NoThread` if a thread couldn't be started: nothing was written, and the threads
/// that were started are joined. `Output` if a write failed, or took nothing of what was left; a
/// front of the text was then written. `Lost` never comes.
pub fn threads<R: Threads + Wait + Sync, W: Write, G: Gate + Sync>(
    rt: &R,
    alloc: Global,
    bench: &Bench,
    writer: &mut W,
    gate: &G,
) -> Result<(), RunFault>
    ensures { WritesRun (λ n call answer. G.may_answer gate.now n call answer)
        (λ n call said. G.is_told gate.now n call said) bench.now
        (W.contents writer.old) (W.contents writer.new) result }
{
    let machine = machine_of(alloc, bench)?;
    let blanks = Blanks::new(alloc)?;
    let (latch, taker) = Latch::new(alloc)?;
    let outfit = Outfit {
        machine,
        blanks,
        latch,
        taker,
    };
    let (machine, totals, settled) = gather_report::<Brand, G, R>(rt, alloc, outfit, bench, gate)?;
    report_run(&machine, &totals, &settled, writer)?;
    Ok(())
}
