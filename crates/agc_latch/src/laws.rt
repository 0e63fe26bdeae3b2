ghost use Rattle.std.specs.Prelude.{◌≡◌};
ghost use Rattle.agc_latch.specs.Laws.{BeginsAtZero, PostKeeps, TakeKeeps, SplitKeeps, JoinKeeps};
ghost use Rattle.agc_latch.specs.Laws.{TakesInTurn, TakesOnlyPosted, IsBounded};

/// The latch's rule, and that each of the four kinds of step keeps it: a post, a take, a split and
/// a join. The words of a new latch are 0. The taker takes the timer's word, then the keyboard's,
/// then the radar's, and so on in turn. No pulse is taken twice, or before it was posted, and no
/// word wraps.
pub fn steps_keep_the_rule()
    ensures new { BeginsAtZero }
    ensures post { PostKeeps }
    ensures take { TakeKeeps }
    ensures split { SplitKeeps }
    ensures join { JoinKeeps }
    ensures turn { TakesInTurn }
    ensures posted { TakesOnlyPosted }
    ensures bounded { IsBounded }
{}
