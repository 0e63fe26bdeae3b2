ghost use Rattle.std.specs.Prelude.{◌≡◌, ◌↔◌, All, IfErr, IfOk, IsOk};
ghost use Rattle.agc_latch.specs.Accounts.{AreAll, IsOf, Settles};
ghost use Rattle.agc_desk.specs.Desks.{with_lines};

use crate::desk::Desk;
use crate::names::Names;
use agc_latch::{Device, Latch, Settled, Unjoined};

/// The parts that [`settle`] hands back if it refuses: the desk has no taker, or not as many
/// devices came as were given out under it.
#[derive(Drop)]
pub struct Unsettled<N: Names> {
    /// The desk as it was.
    pub desk: Desk<N>,
    /// The latch as it was.
    pub latch: Latch,
    /// The devices as they were, in their order.
    pub devices: Vec<Device>,
}

/// Settles a desk's latch: takes the devices back, takes each line once more into what is owed, and
/// closes the latch. It gives the desk, which has no taker then and is else as it was but for its
/// lines, and what became of the pulses of all its latches, earlier ones too: each that was posted
/// is applied or owed.
///
/// # Errors
///
/// `Unsettled` exactly where the desk has no taker or not as many devices come as were given out
/// under it; desk, latch and devices come back as they were.
pub fn settle<N: Names>(
    desk: Desk<N>,
    latch: Latch,
    devices: Vec<Device>,
) -> Result<(Desk<N>, Settled), Unsettled<N>>
    requires taker { IsOf latch desk.lines.taker }
    requires devices { All (λ d. d.latch ≡ latch) devices.items }
    ensures ok { IsOk result ↔ AreAll devices.items desk.lines.taker }
    ensures lines { IfOk result (λ r. Settles devices.items desk.lines r.0.lines) }
    ensures desk { IfOk result (λ r. r.0 ≡ with_lines r.0.lines desk) }
    ensures posted { IfOk result (λ r. r.1.posted ≡ r.0.lines.settled) }
    ensures applied { IfOk result (λ r. r.1.applied ≡ r.0.lines.applied) }
    ensures owed { IfOk result (λ r. r.1.owed ≡ r.0.lines.owed) }
    ensures back { IfErr result (λ u. (u.desk ≡ desk) × (u.latch ≡ latch) × (u.devices ≡ devices)) }
{
    let mut desk = desk;
    match desk.settle_lines(latch, devices) {
        Ok(settled) => Ok((desk, settled)),
        Err(Unjoined { latch, devices }) => Err(Unsettled {
            desk,
            latch,
            devices,
        }),
    }
}
