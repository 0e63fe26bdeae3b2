ghost use Rattle.std.specs.Prelude.{◌≡◌, ◌+◌, ◌<◌, ◌≤◌, ◌⊎◌, IfErr, IfOk, None, Some, length, map};
ghost use Rattle.agc_latch.specs.Accounts.{given_of, latch_of};
ghost use Rattle.agc_latch.specs.Ends.{new_device};
ghost use Rattle.agc_desk.specs.Desks.{with_lines};
ghost use Rattle.agc_desk.specs.Keeping.{lent_of};
ghost use Rattle.agc_session.specs.declared.run_fault.RunFault.TheVariants as fault;
ghost use Rattle.agc_bench.specs.Sharing.{spent_device};

use agc_desk::{Desk, Device, Latch, Line, Names};
use agc_document::Bench;
use agc_session::RunFault;
use std::alloc::Global;

/// The devices of a bench, each of which may post as many pulses as it has. `Lost` comes only where
/// the desk has no taker or fewer devices left.
pub(crate) fn devices_of<N: Names>(
    alloc: Global,
    desk: &mut Desk<N>,
    latch: &Latch,
    bench: &Bench,
) -> Result<Vec<Device>, RunFault>
    requires latch { latch_of desk.old.lines.taker ≡ Some latch.now }
    requires none { desk.old.lines.devices ≡ 0 }
    ensures devices { IfOk result (λ v. v.items ≡ map
        (λ d. new_device latch.now d.1) bench.now.devices) }
    ensures given { IfOk result (λ _. given_of desk.new.lines.taker
        ≡ given_of desk.old.lines.taker + length bench.now.devices) }
    ensures latch { latch_of desk.new.lines.taker ≡ Some latch.now }
    ensures settled { desk.new.lines.settled ≡ desk.old.lines.settled }
    ensures desk { desk.new ≡ with_lines desk.new.lines desk.old }
    ensures early { IfErr result (λ e. e ≡ fault.NoMemory) }
{
    let mut devices = Vec::new(alloc);
    for planned in bench.devices() {
        match desk.device(latch, planned.1) {
            Some(device) => devices.push(device)?,
            None => return Err(RunFault::Lost),
        }
    }
    Ok(devices)
}

/// Posts all pulses of a device, on its line.
pub(crate) fn post_all(latch: &Latch, device: Device, planned: (Line, u32)) -> Device
    requires { device ≡ new_device latch.now planned.1 }
    ensures { result ≡ spent_device latch.now planned }
{
    let mut device = device;
    for _pulse in 0..planned.1 {
        let _posted = device.post(latch, planned.0);
    }
    device
}
