ghost use Rattle.std.specs.Prelude.{◌≡◌, ◌+◌, ◌≤◌, ℕ, [], IfOk, IfErr, OnOk, Some};
ghost use Rattle.std.specs.Prelude.{length, map, nat_eq, vec_len};
ghost use Rattle.agc_latch.specs.Accounts.{no_accounts, with_taker};
ghost use Rattle.agc_latch.specs.Ends.{new_taker};
ghost use Rattle.agc_latch.specs.Ends.{new_device};
ghost use Rattle.agc_desk.specs.Desks.{new_desk};
ghost use Rattle.agc_desk.specs.Draining.{answers_to};
ghost use Rattle.agc_desk.specs.History.{new_holder};
ghost use Rattle.agc_desk.specs.Keeping.{lent_of};
ghost use Rattle.agc_desk.specs.Opening.{names_of};
ghost use Rattle.agc_bench.specs.Sharing.{AreFresh, AreReady, first_calls, lent_to};
ghost use Rattle.agc_bench.specs.Threads.{askers_of, threads_of};

use crate::asker::{ask_script, count_threads};
use crate::poster::devices_of;
use agc_desk::{Blanks, Desk, Device, Held, Latch, Names, Share, Sharing, Taker};
use agc_document::Bench;
use agc_machine::Machine;
use agc_session::RunFault;
use std::alloc::Global;

/// The parts of a run of threads: the desk, as it is under the lock; the share of the caller; those
/// of the threads; and the devices.
#[derive(Drop)]
pub(crate) struct RunParts<N: Sharing> {
    pub(crate) held: Held<N>,
    pub(crate) first: Share<N>,
    pub(crate) shares: Vec<Share<N>>,
    pub(crate) devices: Vec<Device>,
}

/// New shares of a desk. `Lost` comes only if the desk has fewer left.
fn shares_of<N: Names>(
    alloc: Global,
    desk: &mut Desk<N>,
    count: usize,
) -> Result<Vec<Share<N>>, RunFault>
    requires { desk.old.given + count ≤ 64 }
    ensures count { IfOk result (λ v. vec_len v ≡ count) }
    ensures fresh { IfOk result (λ v. AreFresh desk.old.given v.items) }
    ensures given { OnOk result (desk.new ≡ record desk.old { given = desk.old.given + count }) }
    ensures early { IfErr result (λ fault. fault ≡ RunFault.NoMemory) }
{
    let mut shares = Vec::new(alloc);
    for _given in 0..count {
        match desk.share() {
            Some(share) => shares.push(share)?,
            None => return Err(RunFault::Lost),
        }
    }
    Ok(shares)
}

/// New shares for the threads of a bench, and its devices.
fn threads_and_devices<N: Names>(
    alloc: Global,
    desk: &mut Desk<N>,
    latch: &Latch,
    bench: &Bench,
) -> Result<(Vec<Share<N>>, Vec<Device>), RunFault>
    requires given { desk.old.given ≡ 1 }
    requires lines { desk.old.lines ≡ with_taker (new_taker latch.now) no_accounts }
    ensures fresh { IfOk result (λ r. AreFresh 1 r.0.items) }
    ensures for_each { IfOk result (λ r. vec_len r.0 ≡ length (threads_of bench.now)) }
    ensures devices { IfOk result (λ r. r.1.items ≡ map
        (λ d. new_device latch.now d.1) bench.now.devices) }
    ensures desk { OnOk result (desk.new ≡ record desk.old
        { given = length (askers_of bench.now); lines = desk.new.lines }) }
    ensures lent { OnOk result (lent_of desk.new.lines
        ≡ lent_to latch.now bench.now) }
    ensures early { IfErr result (λ fault. fault ≡ RunFault.NoMemory) }
{
    let shares = shares_of(alloc, desk, count_threads(bench))?;
    let devices = devices_of(alloc, desk, latch, bench)?;
    Ok((shares, devices))
}

/// Gets all ready that takes part in a run: the desk gives out the shares and the devices, and is
/// asked the script with the caller's share.
fn with_threads<N: Sharing>(
    alloc: Global,
    mut desk: Desk<N>,
    mut first: Share<N>,
    latch: &Latch,
    bench: &Bench,
) -> Result<RunParts<N>, RunFault>
    requires desk { desk ≡ record (new_desk N.first)
        { given = 1; lines = with_taker (new_taker latch.now) no_accounts } }
    requires first { first ≡ new_holder 0 }
    requires shares { (given : ℕ) → N.may_share given ≡ nat_eq given
        (length (askers_of bench.now)) }
    requires begun { N.begun ≡ first_calls (answers_to N.first bench.now.script) }
    requires latch { latch.now ≡ N.latch }
    requires lent { N.lent ≡ Some (lent_to latch.now bench.now) }
    ensures ready { IfOk result (λ p. AreReady N.first bench.now latch.now p.first p.shares.items
        p.devices.items) }
    ensures early { IfErr result (λ fault. fault ≡ RunFault.NoMemory) }
{
    match threads_and_devices(alloc, &mut desk, latch, bench) {
        Ok((shares, devices)) => {
            ask_script(&mut desk, &mut first, bench.script());
            Ok(RunParts {
                held: Held { desk },
                first,
                shares,
                devices,
            })
        }
        Err(fault) => {
            drop(first);
            drop(desk);
            Err(fault)
        }
    }
}

/// Gets all ready that takes part in a run of this machine, with a desk that has the taker.
pub(crate) fn open<N: Sharing>(
    alloc: Global,
    machine: Machine,
    blanks: Blanks,
    latch: &Latch,
    taker: Taker,
    bench: &Bench,
) -> Result<RunParts<N>, RunFault>
    requires names { names_of blanks ≡ N.names }
    requires first { machine ≡ N.first }
    requires shares { (given : ℕ) → N.may_share given ≡ nat_eq given
        (length (askers_of bench.now)) }
    requires begun { N.begun ≡ first_calls (answers_to N.first bench.now.script) }
    requires taker { taker ≡ new_taker latch.now }
    requires latch { latch.now ≡ N.latch }
    requires lent { N.lent ≡ Some (lent_to latch.now bench.now) }
    ensures ready { IfOk result (λ p. AreReady N.first bench.now latch.now p.first p.shares.items
        p.devices.items) }
    ensures early { IfErr result (λ fault. fault ≡ RunFault.NoMemory) }
{
    let mut desk = Desk::new(machine, blanks);
    let _none = desk.attach(taker);
    match desk.share() {
        Some(first) => with_threads(alloc, desk, first, latch, bench),
        None => unreachable!(),
    }
}
