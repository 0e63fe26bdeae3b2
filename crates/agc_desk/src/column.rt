ghost use Rattle.std.specs.Prelude.{◌≡◌, ◌+◌, ◌<◌, ◌^◌};

use std::marker::Model;
use std::sync::ledger;
use std::sync::ledger::{Blank, Book, Ledger};

/// One holder's count of one number, with its part of the number's ledger. Contracts see it as the
/// amount.
#[derive(Drop)]
pub(crate) struct ShareCount<L: Ledger> {
    amount: u64,
    mark: ledger::Share<L>,
}

impl<L: Ledger> Model for ShareCount<L> {
    ghost use Rattle.std.specs.Prelude.{◌≡◌, ℕ};

    ghost Value = { ℕ };

    ghost view = { λ t. t.amount };

    ghost invariant = { λ t. (t.mark.parts ≡ 1) × (t.mark.amount ≡ t.amount) };
}

impl<L: Ledger> ShareCount<L> {
    /// The holder's count so far.
    pub(crate) fn get(&self) -> u64
        ensures { result ≡ self.now }
    {
        self.amount
    }
}

/// One ledger of a desk: its book, and the parts that were not given out.
#[derive(Drop)]
pub(crate) struct Column<L: Ledger> {
    book: Book<L>,
    rest: ledger::Share<L>,
}

impl<L: Ledger> Model for Column<L> {
    ghost use Rattle.std.specs.Prelude.{◌≡◌};
    ghost use Rattle.agc_desk.specs.Ledgers.{Columned};

    ghost Value = { Columned };

    ghost view = { λ c. record {
      total = c.book.total;
      left = c.rest.parts;
      back = c.rest.amount;
    } };

    ghost invariant = { λ c. L.parts ≡ 65 };
}

impl<L: Ledger> Column<L> {
    /// A ledger of which nothing was booked and no part was given out.
    pub(crate) fn open(blank: Blank) -> Column<L>
        requires name { blank.name ≡ L.name }
        requires parts { (blank.parts ≡ 65) × (L.parts ≡ 65) }
        ensures { result ≡ record { total = 0; left = 65; back = 0 } }
    {
        let (book, rest) = blank.open::<L>();
        Column { book, rest }
    }

    /// A part for a holder that was told nothing.
    pub(crate) fn part(&mut self) -> ShareCount<L>
        requires left { 1 < self.old.left }
        ensures told { result ≡ 0 }
        ensures left { self.new.left + 1 ≡ self.old.left }
        ensures total { self.new.total ≡ self.old.total }
        ensures back { self.new.back ≡ self.old.back }
    {
        ShareCount {
            amount: 0,
            mark: self.rest.split_off(1, 0),
        }
    }

    /// Books what a holder was told.
    pub(crate) fn add(&mut self, told: &mut ShareCount<L>, amount: u64)
        requires fits { self.old.total + amount < 2 ^ 64 }
        ensures told { told.new ≡ told.old + amount }
        ensures total { self.new.total ≡ self.old.total + amount }
        ensures left { self.new.left ≡ self.old.left }
        ensures back { self.new.back ≡ self.old.back }
    {
        self.book.audit(&mut told.mark);
        self.book.add(&mut told.mark, amount);
        told.amount += amount;
    }

    /// Takes a part back.
    pub(crate) fn merge(&mut self, told: ShareCount<L>)
        ensures back { self.new.back ≡ self.old.back + told }
        ensures total { self.new.total ≡ self.old.total }
        ensures left { self.new.left ≡ self.old.left + 1 }
    {
        let ShareCount { amount: _, mark } = told;
        self.rest.merge(mark);
    }

    /// With all parts back, what came back is what was booked.
    pub(crate) fn audit(&mut self)
        requires all { self.old.left ≡ 65 }
        ensures same { self.new ≡ self.old }
        ensures whole { self.old.back ≡ self.old.total }
    {
        self.book.audit(&mut self.rest);
    }
}
