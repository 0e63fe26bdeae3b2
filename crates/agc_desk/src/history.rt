ghost use Rattle.std.specs.Prelude.{◌≡◌, ◌<◌, ◌+◌, ◌++◌, ◌∷◌, [], All, false, IfOk, nat_eq};
ghost use Rattle.std.specs.List.{list_any};
ghost use Rattle.agc_desk.specs.History.{calls_by, new_holder, with_drain, with_heard};
ghost use Rattle.agc_desk.specs.Knowing.{knower};

use crate::names::Names;
use crate::ties::{TieSeat, Ties, check, count, deal, gather, note, open_ties};
use agc_machine::{Answer, NoMemory};
use agc_plan::Line;
use std::alloc::Global;
use std::marker::{Model, PhantomData};

/// A history of no calls that has no name in the types yet. Contracts see it as its name.
#[derive(Drop)]
pub struct Opened {
    ties: Ties,
    keeper: TieSeat,
}

impl Model for Opened {
    ghost use Rattle.std.specs.Prelude.{◌≡◌, ◌<◌, []};
    ghost use Rattle.atomic_table.specs.Seated.{TableId};
    ghost use Rattle.agc_desk.specs.Knowing.{knower};

    ghost Value = { TableId };

    ghost view = { λ o. o.ties.shared.table_id };

    ghost invariant = { λ o. (o.keeper.table_id ≡ o.ties.shared.table_id)
        × (0 < o.ties.shared.table_id.words) × (o.keeper.me ≡ (knower [] 0 [], [])) };
}

impl Opened {
    /// A new history of no calls. It takes eight bytes.
    pub(crate) fn new(alloc: Global) -> Result<Opened, NoMemory> {
        let (ties, keeper) = open_ties(alloc)?;
        Ok(Opened { ties, keeper })
    }
}

/// The history of a desk, which has no bytes but those that name it. Contracts see it as its calls,
/// how many shares were given out, and the numbers of those that were gathered.
#[derive(Drop)]
pub(crate) struct History<N: Names> {
    ties: Ties,
    keeper: TieSeat,
    given: u64,
    of: PhantomData<N>,
}

impl<N: Names> Model for History<N> {
    ghost use Rattle.std.specs.Prelude.{◌≡◌, ◌<◌, true};
    ghost use Rattle.agc_desk.specs.History.{Known};

    ghost Value = { Known };

    ghost view = { λ h. record
        { calls = h.keeper.me.0.calls; given = h.given; gathered = h.keeper.me.0.gathered } };

    ghost invariant = { λ h. (h.ties.shared.table_id ≡ N.names.history)
        × (h.keeper.table_id ≡ N.names.history) × (0 < N.names.history.words)
        × (h.keeper.me.0.keeps ≡ true) × (h.keeper.me.0.given ≡ h.given) };
}

/// The requests of a share's holder, the answers, and the share's number. Contracts see it as
/// these.
#[derive(Drop)]
pub(crate) struct Own<N: Names> {
    pass: TieSeat,
    of: PhantomData<N>,
}

impl<N: Names> Model for Own<N> {
    ghost use Rattle.std.specs.Prelude.{◌≡◌, [], true};
    ghost use Rattle.agc_desk.specs.History.{Holder};
    ghost use Rattle.agc_desk.specs.Views.{holder_of};

    ghost Value = { Holder };

    ghost view = { λ o. holder_of o.pass.me.0 };

    ghost invariant = { λ o. (o.pass.table_id ≡ N.names.history) × (o.pass.me.0.owns ≡ true)
        × (o.pass.me.1 ≡ []) };
}

impl<N: Names> History<N> {
    /// A history of no calls, under the name that the types know.
    pub(crate) fn open(opened: Opened) -> History<N>
        requires { opened ≡ N.names.history }
        ensures { result ≡ record { calls = []; given = 0; gathered = [] } }
    {
        let Opened { ties, keeper } = opened;
        History {
            ties,
            keeper,
            given: 0,
            of: PhantomData,
        }
    }

    /// How many shares were given out.
    pub(crate) fn given(&self) -> u64
        ensures { result ≡ self.now.given }
    {
        self.given
    }

    /// A new number, with which nothing was asked.
    pub(crate) fn part(&mut self) -> Own<N>
        requires { self.old.given < 64 }
        ensures own { result ≡ new_holder self.old.given }
        ensures given { self.new ≡ record self.old { given = self.old.given + 1 } }
    {
        self.given += 1;
        Own {
            pass: deal(&self.ties, &mut self.keeper),
            of: PhantomData,
        }
    }

    /// The holder of this number was answered so, as it asked for a pulse of this line, or for
    /// none.
    pub(crate) fn note(&mut self, own: &mut Own<N>, answer: &Answer, pulse: Option<Line>)
        ensures own { own.new ≡ with_heard (record
            { by = own.old.number; answer = answer.now; pulse = pulse } ∷ []) own.old }
        ensures calls { self.new
            ≡ record self.old {
              calls = self.old.calls
                  ++ record { by = own.old.number; answer = answer.now; pulse = pulse } ∷ [];
            } }
    {
        note(&self.ties, &mut self.keeper, &mut own.pass, answer, pulse);
    }

    /// The holder of this number drains once more.
    pub(crate) fn count(&self, own: &mut Own<N>)
        ensures { own.new ≡ with_drain own.old }
    {
        count(&self.ties, &mut own.pass);
    }

    /// What the holder of this number heard is what the history has of it; and it was given out,
    /// and gathered just now.
    pub(crate) fn gather(&mut self, own: Own<N>)
        ensures gathered { self.new
            ≡ record self.old { gathered = self.old.gathered ++ own.number ∷ [] } }
        ensures heard { calls_by own.number self.old.calls ≡ own.heard }
        ensures given_out { own.number < self.old.given }
        ensures apart { list_any (nat_eq own.number) self.old.gathered ≡ false }
    {
        let Own { pass, of: _ } = own;
        gather(&self.ties, &mut self.keeper, pass);
    }

    /// All calls are of numbers that were given out.
    pub(crate) fn check(&mut self)
        ensures same { self.new ≡ self.old }
        ensures below { All (λ call. call.by < self.old.given) self.old.calls }
    {
        check(&self.ties, &mut self.keeper);
    }
}
