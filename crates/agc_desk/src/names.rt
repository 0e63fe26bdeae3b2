ghost use Rattle.std.specs.Prelude.{◌≡◌, ℕ, List, [], None, Option, true, Bool};
ghost use Rattle.atomic_table.specs.Seated.{TableId};
ghost use Rattle.agc_latch.specs.Holders.{no_latch};
ghost use Rattle.agc_machine.specs.Machines.{Machined};
ghost use Rattle.agc_desk.specs.declared.ties.Call.{Call};
ghost use Rattle.agc_desk.specs.Lending.{Lent};
ghost use Rattle.agc_desk.specs.Naming.{DeskNames};
ghost use Rattle.agc_desk.specs.Unpicked.{no_names, no_machine};

use crate::history::Opened;
use agc_machine::NoMemory;
use std::alloc::Global;
use std::marker::{Brand, PhantomData};
use std::sync::ledger::{Blank, Ledger};

/// Into how many parts each ledger is cut: one for each of 64 shares, and one that stays with the
/// desk.
const PARTS: u64 = 65;

/// The names in the type of a desk: its five ledgers, one for each number of [`Totals`], its
/// history, and the machine with which it was made.
///
/// A function that is generic over it is called with `Brand`, and the call picks names and machine.
pub trait Names {
    /// The names of the five ledgers and of the history.
    ghost names: { DeskNames };

    /// The machine with which the desk is made.
    ghost first: { Machined };
}

impl Names for Brand {
    ghost names = { no_names };

    ghost first = { no_machine };
}

/// The names in the type of a desk under a lock, besides those of the desk: how many of its shares
/// may be given out while it is there, with which calls its history begins, and of which latch its
/// taker is. A call with `Brand` picks these too.
pub trait Sharing: Names {
    /// Whether as many shares may be given out while the desk is under the lock.
    ghost may_share: { ℕ → Bool };

    /// The calls with which the history begins.
    ghost begun: { List Call };

    /// The latch that the desk's taker is of, if it has one.
    ghost latch: { TableId };

    /// The part of the desk's accounts of lines that stays while it is under the lock, if any does.
    ghost lent: { Option Lent };
}

impl Sharing for Brand {
    ghost may_share = { λ _. true };

    ghost begun = { [] };

    ghost latch = { no_latch };

    ghost lent = { None };
}

/// The ledger of `served`.
pub(crate) struct Served<N: Names> {
    of: PhantomData<N>,
}

impl<N: Names> Ledger for Served<N> {
    ghost name = { N.names.served };

    ghost parts = { 65 };
}

/// The ledger of `a1201`.
pub(crate) struct A1201<N: Names> {
    of: PhantomData<N>,
}

impl<N: Names> Ledger for A1201<N> {
    ghost name = { N.names.a1201 };

    ghost parts = { 65 };
}

/// The ledger of `a1202`.
pub(crate) struct A1202<N: Names> {
    of: PhantomData<N>,
}

impl<N: Names> Ledger for A1202<N> {
    ghost name = { N.names.a1202 };

    ghost parts = { 65 };
}

/// The ledger of `a1203`.
pub(crate) struct A1203<N: Names> {
    of: PhantomData<N>,
}

impl<N: Names> Ledger for A1203<N> {
    ghost name = { N.names.a1203 };

    ghost parts = { 65 };
}

/// The ledger of `restarts`.
pub(crate) struct Restarts<N: Names> {
    of: PhantomData<N>,
}

impl<N: Names> Ledger for Restarts<N> {
    ghost name = { N.names.restarts };

    ghost parts = { 65 };
}

/// Five ledgers that have no names in the types yet, of 65 parts each, in fields named as those of
/// [`Totals`], and a history of no calls.
///
/// They are made before the function that is generic over their names is called.
#[derive(Drop)]
pub struct Blanks {
    /// For the requests that were served.
    pub served: Blank,
    /// For those that raised alarm 1201.
    pub a1201: Blank,
    /// For those that raised alarm 1202.
    pub a1202: Blank,
    /// For those that raised alarm 1203.
    pub a1203: Blank,
    /// For the requests with which an era began.
    pub restarts: Blank,
    /// The history.
    pub history: Opened,
    ghost served_parts: { served.parts ≡ 65 },
    ghost a1201_parts: { a1201.parts ≡ 65 },
    ghost a1202_parts: { a1202.parts ≡ 65 },
    ghost a1203_parts: { a1203.parts ≡ 65 },
    ghost restarts_parts: { restarts.parts ≡ 65 },
}

impl Blanks {
    /// Five new ledgers, of which nothing was booked, and a new history.
    ///
    /// # Errors
    ///
    /// `NoMemory` where there is none for the word that stands for the history.
    pub fn new(alloc: Global) -> Result<Blanks, NoMemory> {
        let history = Opened::new(alloc)?;
        Ok(Blanks {
            served: Blank::new(PARTS),
            a1201: Blank::new(PARTS),
            a1202: Blank::new(PARTS),
            a1203: Blank::new(PARTS),
            restarts: Blank::new(PARTS),
            history,
        })
    }
}
