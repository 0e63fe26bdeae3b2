ghost use Rattle.std.specs.Prelude.{◌≡◌, ◌+◌, ◌<◌, ◌^◌};
ghost use Rattle.agc_machine.specs.Told.{add, nothing};
ghost use Rattle.agc_desk.specs.Ledgers.{NoneFell};
ghost use Rattle.agc_desk.specs.Opening.{names_of};

use crate::column::{Column, ShareCount};
use crate::history::Opened;
use crate::names::{A1201, A1202, A1203, Blanks, Names, Restarts, Served};
use agc_machine::Totals;
use std::marker::Model;

/// One holder's counts of each of the five numbers. Contracts see it as these.
#[derive(Drop)]
pub(crate) struct Amounts<N: Names> {
    served: ShareCount<Served<N>>,
    a1201: ShareCount<A1201<N>>,
    a1202: ShareCount<A1202<N>>,
    a1203: ShareCount<A1203<N>>,
    restarts: ShareCount<Restarts<N>>,
}

impl<N: Names> Model for Amounts<N> {
    ghost use Rattle.agc_machine.specs.declared.totals.Totals.{Totals};

    ghost Value = { Totals };

    ghost view = { λ s. record {
      served = s.served;
      a1201 = s.a1201;
      a1202 = s.a1202;
      a1203 = s.a1203;
      restarts = s.restarts;
    } };
}

impl<N: Names> Amounts<N> {
    /// The holder's counts so far.
    pub(crate) fn told(&self) -> Totals
        ensures { result ≡ self.now }
    {
        Totals {
            served: self.served.get(),
            a1201: self.a1201.get(),
            a1202: self.a1202.get(),
            a1203: self.a1203.get(),
            restarts: self.restarts.get(),
        }
    }
}

/// The five ledgers of a desk.
#[derive(Drop)]
pub(crate) struct Ledgers<N: Names> {
    served: Column<Served<N>>,
    a1201: Column<A1201<N>>,
    a1202: Column<A1202<N>>,
    a1203: Column<A1203<N>>,
    restarts: Column<Restarts<N>>,
}

impl<N: Names> Model for Ledgers<N> {
    ghost use Rattle.std.specs.Prelude.{◌≡◌};
    ghost use Rattle.agc_desk.specs.Books.{Ledgered};

    ghost Value = { Ledgered };

    ghost view = { λ l. record {
      total = record {
        served = l.served.total;
        a1201 = l.a1201.total;
        a1202 = l.a1202.total;
        a1203 = l.a1203.total;
        restarts = l.restarts.total;
      };
      left = l.served.left;
      back = record {
        served = l.served.back;
        a1201 = l.a1201.back;
        a1202 = l.a1202.back;
        a1203 = l.a1203.back;
        restarts = l.restarts.back;
      };
    } };

    ghost invariant = { λ l. (l.a1201.left ≡ l.served.left) × (l.a1202.left ≡ l.served.left)
        × (l.a1203.left ≡ l.served.left) × (l.restarts.left ≡ l.served.left) };
}

impl<N: Names> Ledgers<N> {
    /// Ledgers of which nothing was booked and no part was given out, and the history that came
    /// with them.
    pub(crate) fn open(blanks: Blanks) -> (Ledgers<N>, Opened)
        requires { names_of blanks ≡ N.names }
        ensures ledgers { result.0 ≡ record { total = nothing; left = 65; back = nothing } }
        ensures history { result.1 ≡ blanks.history }
    {
        let Blanks {
            served,
            a1201,
            a1202,
            a1203,
            restarts,
            history,
        } = blanks;
        let ledgers = Ledgers {
            served: Column::open(served),
            a1201: Column::open(a1201),
            a1202: Column::open(a1202),
            a1203: Column::open(a1203),
            restarts: Column::open(restarts),
        };
        (ledgers, history)
    }

    /// Parts for a holder who was told nothing.
    pub(crate) fn part(&mut self) -> Amounts<N>
        requires left { 1 < self.old.left }
        ensures told { result ≡ nothing }
        ensures left { self.new.left + 1 ≡ self.old.left }
        ensures total { self.new.total ≡ self.old.total }
        ensures back { self.new.back ≡ self.old.back }
    {
        Amounts {
            served: self.served.part(),
            a1201: self.a1201.part(),
            a1202: self.a1202.part(),
            a1203: self.a1203.part(),
            restarts: self.restarts.part(),
        }
    }

    /// Books what a holder was told.
    pub(crate) fn add(&mut self, amounts: &mut Amounts<N>, told: Totals)
        requires served { self.old.total.served + told.served < 2 ^ 64 }
        requires a1201 { self.old.total.a1201 + told.a1201 < 2 ^ 64 }
        requires a1202 { self.old.total.a1202 + told.a1202 < 2 ^ 64 }
        requires a1203 { self.old.total.a1203 + told.a1203 < 2 ^ 64 }
        requires restarts { self.old.total.restarts + told.restarts < 2 ^ 64 }
        ensures told { amounts.new ≡ add amounts.old told }
        ensures total { self.new.total ≡ add self.old.total told }
        ensures left { self.new.left ≡ self.old.left }
        ensures back { self.new.back ≡ self.old.back }
    {
        self.served.add(&mut amounts.served, told.served);
        self.a1201.add(&mut amounts.a1201, told.a1201);
        self.a1202.add(&mut amounts.a1202, told.a1202);
        self.a1203.add(&mut amounts.a1203, told.a1203);
        self.restarts.add(&mut amounts.restarts, told.restarts);
    }

    /// Takes a holder's parts back.
    pub(crate) fn merge(&mut self, amounts: Amounts<N>)
        ensures back { self.new.back ≡ add self.old.back amounts }
        ensures total { self.new.total ≡ self.old.total }
        ensures left { self.new.left ≡ self.old.left + 1 }
    {
        let Amounts {
            served,
            a1201,
            a1202,
            a1203,
            restarts,
        } = amounts;
        self.served.merge(served);
        self.a1201.merge(a1201);
        self.a1202.merge(a1202);
        self.a1203.merge(a1203);
        self.restarts.merge(restarts);
    }

    /// With all shares back, what came back is what was booked.
    pub(crate) fn audit(&mut self)
        requires all { self.old.left ≡ 65 }
        ensures same { self.new ≡ self.old }
        ensures whole { self.old.back ≡ self.old.total }
    {
        self.served.audit();
        self.a1201.audit();
        self.a1202.audit();
        self.a1203.audit();
        self.restarts.audit();
    }
}

/// By how much each number grew.
pub(crate) fn growth(old: Totals, new: Totals) -> Totals
    requires { NoneFell old new }
    ensures { add old result ≡ new }
{
    Totals {
        served: new.served - old.served,
        a1201: new.a1201 - old.a1201,
        a1202: new.a1202 - old.a1202,
        a1203: new.a1203 - old.a1203,
        restarts: new.restarts - old.restarts,
    }
}
