ghost use Rattle.std.specs.Prelude.{◌≡◌, ◌<◌, ◌↔◌, [], sum, IsOk, OnErr, OnOk};
ghost use Rattle.agc_latch.specs.Ends.{new_device, with_one_more};
ghost use Rattle.agc_latch.specs.Steps.{device_view};
ghost use Rattle.agc_latch.specs.declared.views.Role.TheVariants.{Posts};

use crate::latch::Latch;
use crate::steps::Post;
use crate::views::View;
use agc_plan::Line;
use atomic_table::Seat;
use std::marker::Model;
use thiserror::Error;

/// A device has posted as often as it may.
#[derive(Clone, Copy, PartialEq, Eq, Debug, Error)]
#[error("the device has posted as often as it may")]
pub struct PostSpent;

/// Posts pulses to a latch. Contracts see it as its latch, how many pulses it may post in all, and
/// what it posted per line.
///
/// What it posted is what its seat at the latch has posted, which only a post of this device
/// changes.
#[derive(Drop)]
pub struct Device {
    seat: Seat<(), View>,
    posts: u32,
    left: u32,
    posted: [u64; 3],
}

impl Model for Device {
    ghost use Rattle.agc_latch.specs.Ends.{Posting, IsDevice};

    ghost Value = { Posting };

    ghost view = { λ d. record {
      latch = d.seat.table_id;
      posts = d.posts;
      posted = d.seat.me.0.posted;
    } };

    ghost invariant = { λ d. IsDevice d.seat.me d.posts d.left d.posted };
}

impl Device {
    // A device that posts from this seat.
    pub(crate) fn of_seat(seat: Seat<(), View>, posts: u32) -> Device
        requires { seat.me ≡ (device_view, []) }
        ensures { result ≡ new_device seat.table_id posts }
    {
        Device {
            seat,
            posts,
            left: posts,
            posted: [0; 3],
        }
    }

    // The seat from which it posts.
    pub(crate) fn into_seat(self) -> Seat<(), View>
        ensures latch { result.table_id ≡ self.latch }
        ensures posted { result.me.0.posted ≡ self.posted }
        ensures role { (result.me.0.role ≡ Posts) × (result.me.0.seats ≡ 1) × (result.me.1 ≡ []) }
    {
        let Device {
            seat,
            posts: _,
            left: _,
            posted: _,
        } = self;
        seat
    }

    /// Posts one pulse on a line, by one atomic step. It takes no lock and no memory, and waits for
    /// nobody.
    ///
    /// # Errors
    ///
    /// `PostSpent` exactly where as many pulses were posted as the device may post, all lines
    /// together; then nothing changes.
    pub fn post(&mut self, latch: &Latch, line: Line) -> Result<(), PostSpent>
        requires { self.old.latch ≡ latch.now }
        ensures ok { IsOk result ↔ (sum self.old.posted < self.old.posts) }
        ensures posted { OnOk result (self.new ≡ with_one_more line self.old) }
        ensures same { OnErr result (self.new ≡ self.old) }
    {
        if self.left == 0 {
            return Err(PostSpent);
        }
        let word = line.word();
        let _found = latch
            .table
            .shared
            .fetch_add::<Post>(&mut self.seat, word, 1);
        self.left -= 1;
        self.posted[word] += 1;
        Ok(())
    }

    /// The pulses that it posted, per line: the timer's, the keyboard's, the radar's.
    pub fn posted(&self) -> [u64; 3]
        ensures { result ≡ self.now.posted }
    {
        self.posted
    }
}
