ghost use Rattle.std.specs.Prelude.{◌≡◌, ◌+◌, ◌*◌, ◌<◌, ◌≤◌, [], All, length};
ghost use Rattle.agc_latch.specs.Accounts.{posted_by};
ghost use Rattle.agc_latch.specs.Ends.{new_device, new_taker};
ghost use Rattle.agc_latch.specs.Holders.{IsRoundDone, with_one_given};
ghost use Rattle.agc_latch.specs.Latches.{IsTurnOf};
ghost use Rattle.agc_latch.specs.Lines.{added, on, raised};
ghost use Rattle.agc_plan.specs.Pulses.{word_of};
ghost use Rattle.agc_latch.specs.Steps.{first_view};
ghost use Rattle.agc_plan.specs.declared.line.Line.{Line};

use crate::device::Device;
use crate::latch::Latch;
use crate::steps::{GiveOut, Take, TakeBack};
use crate::views::View;
use agc_plan::Line;
use atomic_table::Seat;
use std::marker::Model;

/// The taker's seat. Contracts see all that its view knows.
#[derive(Drop)]
pub struct TakerSeat {
    seat: Seat<(), View>,
}

impl Model for TakerSeat {
    ghost use Rattle.agc_latch.specs.Holders.{Joining, IsTaker};

    ghost Value = { Joining };

    ghost view = { λ t. record {
      latch = t.seat.table_id;
      taken = t.seat.me.0.taken;
      takes = t.seat.me.0.takes;
      given = t.seat.me.0.given;
      back = t.seat.me.0.seats;
      posted = t.seat.me.0.posted;
    } };

    ghost invariant = { λ t. IsTaker t.seat.me };
}

impl TakerSeat {
    // Takes all pulses of a line whose turn it is, by one step, and answers how many.
    fn take(&mut self, latch: &Latch, line: Line) -> u64
        requires latch { self.old.latch ≡ latch.now }
        requires turn { IsTurnOf line self.old.takes }
        ensures taken { self.new ≡ record self.old {
          taken = raised (word_of line) result self.old.taken;
          takes = raised (word_of line) 1 self.old.takes;
        } }
        ensures bounded { on line self.old.taken + result ≤ 4294967295 * self.old.given }
        ensures whole { self.old.back ≡ self.old.given
            → on line self.old.taken + result ≡ on line self.old.posted }
        ensures wide { (length self.old.taken ≡ 3) × (length self.old.takes ≡ 3) }
    {
        let word = line.word();
        latch.table.shared.swap::<Take>(&mut self.seat, word, 0)
    }

    // Takes the timer's word, then the keyboard's, then the radar's, and answers how many pulses it
    // found there.
    fn take_each(&mut self, latch: &Latch) -> [u64; 3]
        requires latch { self.old.latch ≡ latch.now }
        requires round { IsRoundDone self.old.takes }
        ensures once { (line : Line) → on line self.new.takes ≡ on line self.old.takes + 1 }
        ensures taken { (line : Line)
            → on line self.new.taken ≡ on line self.old.taken + on line result }
        ensures bounded { (line : Line) → on line self.new.taken ≤ 4294967295 * self.old.given }
        ensures whole { self.old.back ≡ self.old.given
            → (line : Line) → on line self.new.taken ≡ on line self.old.posted }
        ensures rest { self.new
            ≡ record self.old { taken = self.new.taken; takes = self.new.takes } }
    {
        let timer = self.take(latch, Line::Timer);
        let key = self.take(latch, Line::Key);
        let radar = self.take(latch, Line::Radar);
        [timer, key, radar]
    }

    // Gives out one more device, which may post so many pulses.
    fn device(&mut self, latch: &Latch, posts: u32) -> Device
        requires latch { self.old.latch ≡ latch.now }
        requires room { self.old.given < 64 }
        ensures taker { self.new ≡ record self.old { given = self.old.given + 1 } }
        ensures device { result ≡ new_device latch.now posts }
    {
        let seat = latch.table.shared.split_seat::<GiveOut>(&mut self.seat);
        Device::of_seat(seat, posts)
    }

    // Takes a device back, with what it posted.
    fn join(&mut self, latch: &Latch, device: Device)
        requires latch { self.old.latch ≡ latch.now }
        requires device { device.latch ≡ latch.now }
        ensures { self.new ≡ record self.old {
          posted = added self.old.posted device.posted;
          back = self.old.back + 1;
        } }
    {
        let seat = device.into_seat();
        latch
            .table
            .shared
            .join_seat::<TakeBack>(&mut self.seat, seat);
    }

    // Takes all these devices back.
    fn join_all(&mut self, latch: &Latch, mut devices: Vec<Device>)
        requires latch { self.old.latch ≡ latch.now }
        requires devices { All (λ d. d.latch ≡ latch.now) devices.items }
        ensures back { self.new.back ≡ self.old.back + length devices.items }
        ensures posted { (line : Line)
            → on line self.new.posted ≡ on line self.old.posted + posted_by line devices.items }
        ensures latch { self.new.latch ≡ self.old.latch }
        ensures taken { self.new.taken ≡ self.old.taken }
        ensures takes { self.new.takes ≡ self.old.takes }
        ensures given { self.new.given ≡ self.old.given }
    {
        while let Some(device) = devices.pop() {
            self.join(latch, device);
        }
    }

    // Closes the latch, and answers what its words then hold: what was posted and not taken.
    fn close(self, latch: Latch) -> [u64; 3]
        requires latch { self.latch ≡ latch }
        requires all { self.back ≡ self.given }
        ensures { (line : Line) → on line result + on line self.taken ≡ on line self.posted }
    {
        let Latch { table } = latch;
        let TakerSeat { seat } = self;
        let closed = table.close_with(seat);
        let words = [closed.word(0), closed.word(1), closed.word(2)];
        closed.free();
        words
    }
}

/// A taker that has an owner: contracts see its latch, what it took per line, and how many devices
/// it gave out.
#[derive(Drop)]
pub struct AttachedTaker {
    seat: TakerSeat,
    given: u32,
}

impl Model for AttachedTaker {
    ghost use Rattle.std.specs.Prelude.{◌≡◌};
    ghost use Rattle.agc_latch.specs.Ends.{Taking};
    ghost use Rattle.agc_latch.specs.Holders.{IsRoundDone};
    ghost use Rattle.agc_latch.specs.Lines.{zeros};

    ghost Value = { Taking };

    ghost view = { λ t. record {
      latch = t.seat.latch;
      taken = t.seat.taken;
      takes = t.seat.takes;
      given = t.seat.given;
    } };

    ghost invariant = { λ t.
        (t.seat.given ≡ t.given) × (t.seat.back ≡ 0) × (t.seat.posted ≡ zeros)
        × IsRoundDone t.seat.takes };
}

impl AttachedTaker {
    // How many devices it gave out.
    pub fn given(&self) -> u32
        ensures { result ≡ self.now.given }
    {
        self.given
    }

    // Takes each line once, the timer's first and the radar's last, and answers how many pulses it
    // found there.
    pub fn take_each(&mut self, latch: &Latch) -> [u64; 3]
        requires { self.old.latch ≡ latch.now }
        ensures once { (line : Line) → on line self.new.takes ≡ on line self.old.takes + 1 }
        ensures taken { (line : Line)
            → on line self.new.taken ≡ on line self.old.taken + on line result }
        ensures bounded { (line : Line) → on line self.new.taken ≤ 4294967295 * self.old.given }
        ensures rest { self.new
            ≡ record self.old { taken = self.new.taken; takes = self.new.takes } }
    {
        self.seat.take_each(latch)
    }

    // Gives out one more device.
    pub fn device(&mut self, latch: &Latch, posts: u32) -> Device
        requires latch { self.old.latch ≡ latch.now }
        requires room { self.old.given < 64 }
        ensures taker { self.new ≡ with_one_given self.old }
        ensures device { result ≡ new_device latch.now posts }
    {
        self.given += 1;
        self.seat.device(latch, posts)
    }

    // Ends the latch, where all devices came back: takes them back, takes each line once more, and
    // closes the latch. It answers what this last take found.
    pub fn end(self, latch: Latch, devices: Vec<Device>) -> [u64; 3]
        requires latch { self.latch ≡ latch }
        requires devices { All (λ d. d.latch ≡ latch) devices.items }
        requires all { length devices.items ≡ self.given }
        ensures taken { (line : Line)
            → on line self.taken + on line result ≡ posted_by line devices.items }
        ensures bounded { (line : Line)
            → on line self.taken + on line result ≤ 4294967295 * self.given }
    {
        let AttachedTaker { mut seat, given: _ } = self;
        seat.join_all(&latch, devices);
        let last = seat.take_each(&latch);
        let left = seat.close(latch);
        prove!(left[0] == 0 && left[1] == 0 && left[2] == 0);
        last
    }
}

/// Takes what devices posted. There is one for each latch. As long as nobody owns it with accounts,
/// it gave out no device and took nothing.
#[derive(Drop)]
pub struct Taker {
    attached: AttachedTaker,
}

impl Model for Taker {
    ghost use Rattle.std.specs.Prelude.{◌≡◌};
    ghost use Rattle.agc_latch.specs.Ends.{Taking, new_taker};

    ghost Value = { Taking };

    ghost view = { λ t. t.attached };

    ghost invariant = { λ t. t.attached ≡ new_taker t.attached.latch };
}

impl Taker {
    // The taker that has the first seat of a latch.
    pub(crate) fn of_seat(seat: Seat<(), View>) -> Taker
        requires { seat.me ≡ (first_view, []) }
        ensures { result ≡ new_taker seat.table_id }
    {
        let seat = TakerSeat { seat };
        Taker {
            attached: AttachedTaker { seat, given: 0 },
        }
    }

    // The taker, for its owner.
    pub(crate) fn into_attached(self) -> AttachedTaker
        ensures taker { result ≡ self }
        ensures new { self ≡ new_taker self.latch }
    {
        let Taker { attached } = self;
        attached
    }
}
