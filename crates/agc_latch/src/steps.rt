use crate::views::View;
use atomic_table::{Join, Play, Split, TableRule};

/// The rule of a latch, which its words and the views of its seats meet between any two steps.
pub struct Rule;

impl TableRule<(), View, ()> for Rule {
    ghost use Rattle.agc_latch.specs.Steps.{first_view};
    ghost use Rattle.agc_latch.specs.Tellings.{IsLatchState};

    ghost holds = { λ _. IsLatchState };

    ghost first = { λ _. first_view };
}

/// One pulse is posted.
pub struct Post;

impl Play<(), View> for Post {
    ghost use Rattle.agc_latch.specs.Tellings.{Posted};

    ghost then = { Posted };
}

/// All pulses of a line are taken.
pub struct Take;

impl Play<(), View> for Take {
    ghost use Rattle.agc_latch.specs.Tellings.{Taken};

    ghost then = { Taken };
}

/// The taker gives a device out.
pub struct GiveOut;

impl Split<View> for GiveOut {
    ghost use Rattle.agc_latch.specs.Steps.{after_split, device_view};

    ghost left = { after_split };

    ghost right = { λ _. device_view };
}

/// The taker takes a device back.
pub struct TakeBack;

impl Join<View> for TakeBack {
    ghost use Rattle.agc_latch.specs.Steps.{after_join, spent_view};

    ghost both = { after_join };

    ghost spent = { spent_view };
}
