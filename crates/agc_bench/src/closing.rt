ghost use Rattle.std.specs.Prelude.{◌≡◌, ◌+◌, ◌++◌, ◌∷◌, All, IfOk, IfErr, Some, vec_len};
ghost use Rattle.agc_latch.specs.Accounts.{IsKept, IsOf};
ghost use Rattle.agc_latch.specs.Lines.{zeros};
ghost use Rattle.agc_machine.specs.Told.{add};
ghost use Rattle.agc_desk.specs.Desks.{ArePulses, with_lines};
ghost use Rattle.agc_desk.specs.History.{IsHistory};
ghost use Rattle.agc_desk.specs.Keeping.{lent_of};
ghost use Rattle.agc_bench.specs.Sharing.{AsksPulses, Finishes, GoesOn, HaveSettled};

use crate::opening::RunParts;
use agc_desk::{Desk, Device, Held, Latch, Names, Settled, Share, Sharing, gather, settle};
use agc_machine::{Machine, Totals};
use agc_session::RunFault;

/// Drains a desk that is under no lock.
fn attend_last<N: Names>(desk: &mut Desk<N>, latch: &Latch, share: &mut Share<N>)
    requires { IsOf latch.now desk.old.lines.taker }
    ensures asks { AsksPulses 1 share.old share.new }
    ensures given { desk.new.given ≡ desk.old.given }
    ensures history { GoesOn desk.old.history desk.new.history }
    ensures lent { lent_of desk.new.lines ≡ lent_of desk.old.lines }
{
    desk.drain(latch, share);
}

/// Settles the desk's latch, to which all its devices come back.
fn settle_all<N: Names>(desk: Desk<N>, latch: Latch, devices: Vec<Device>) -> (Desk<N>, Settled)
    requires lent { lent_of desk.lines ≡ record
        { latch = Some latch; given = vec_len devices; settled = zeros } }
    requires devices { All (λ d. d.latch ≡ latch) devices.items }
    ensures desk { result.0 ≡ with_lines result.0.lines desk }
    ensures settled { HaveSettled devices.items result.1 }
    ensures applied { result.1.applied ≡ result.0.lines.applied }
    ensures owed { result.1.owed ≡ result.0.lines.owed }
{
    match settle(desk, latch, devices) {
        Ok(settled) => settled,
        Err(_left) => unreachable!(),
    }
}

/// All shares, the caller's first.
fn with_first<N: Names>(first: Share<N>, shares: Vec<Share<N>>) -> Result<Vec<Share<N>>, RunFault>
    ensures all { IfOk result (λ v. v.items ≡ first ∷ shares.items) }
    ensures early { IfErr result (λ fault. fault ≡ RunFault.NoMemory) }
{
    let mut all = shares;
    all.insert(0, first)?;
    Ok(all)
}

/// Gathers all shares of a desk, the caller's first.
fn gather_all<N: Names>(
    desk: Desk<N>,
    first: Share<N>,
    shares: Vec<Share<N>>,
) -> Result<(Machine, Totals), RunFault>
    requires { desk.given ≡ vec_len shares + 1 }
    ensures history { IfOk result (λ r.
        IsHistory N.first (first ∷ shares.items) desk.history r.0) }
    ensures grown { IfOk result (λ r. add r.1 N.first.totals ≡ r.0.totals) }
    ensures pulses { IfOk result (λ _. ArePulses N.first.plan desk.history
        desk.lines.applied desk.lines.begun) }
    ensures kept { IfOk result (λ _. IsKept desk.lines) }
    ensures early { IfErr result (λ fault. fault ≡ RunFault.NoMemory) }
{
    match with_first(first, shares) {
        Ok(all) => match gather(desk, all) {
            Ok(gather_report) => Ok(gather_report),
            Err(_left) => unreachable!(),
        },
        Err(fault) => {
            drop(desk);
            Err(fault)
        }
    }
}

/// Ends a run whose threads have ended: attends with the caller's share, settles the latch, and
/// gathers the shares.
pub(crate) fn finish<N: Sharing>(
    parts: RunParts<N>,
    latch: Latch,
) -> Result<(Machine, Totals, Settled), RunFault>
    requires given { parts.held.desk.given ≡ vec_len parts.shares + 1 }
    requires lent { lent_of parts.held.desk.lines ≡ record
        { latch = Some latch; given = vec_len parts.devices; settled = zeros } }
    requires devices { All (λ d. d.latch ≡ latch) parts.devices.items }
    ensures run { IfOk result (λ r. Finishes N.first parts.held.desk.history parts.first
        parts.shares.items r.0 r.2) }
    ensures grown { IfOk result (λ r. add r.1 N.first.totals ≡ r.0.totals) }
    ensures settled { IfOk result (λ r. HaveSettled parts.devices.items r.2) }
    ensures early { IfErr result (λ fault. fault ≡ RunFault.NoMemory) }
{
    let RunParts {
        held,
        mut first,
        shares,
        devices,
    } = parts;
    let Held { mut desk } = held;
    attend_last(&mut desk, &latch, &mut first);
    let (desk, settled) = settle_all(desk, latch, devices);
    match gather_all(desk, first, shares) {
        Ok((machine, totals)) => Ok((machine, totals, settled)),
        Err(fault) => Err(fault),
    }
}
