ghost use Rattle.std.specs.Prelude.{◌≡◌, IfOk};
ghost use Rattle.agc_latch.specs.Ends.{new_taker};

use crate::steps::Rule;
use crate::taker::Taker;
use crate::views::View;
use agc_plan::NoMemory;
use atomic_table::Table;
use std::alloc::Global;
use std::marker::Model;

/// Three words, one for each line. Contracts see which latch it is.
///
/// Between any two steps its words and the views of its seats meet the latch's rule.
#[derive(Drop)]
pub struct Latch {
    pub(crate) table: Table<(), View, (), Rule, Global>,
}

impl Model for Latch {
    ghost use Rattle.std.specs.Prelude.{◌≡◌};
    ghost use Rattle.atomic_table.specs.Seated.{TableId};

    ghost Value = { TableId };

    ghost view = { λ l. l.table.shared.table_id };

    ghost invariant = { λ l.
        (l.table.shared.table_id.words ≡ 3) × (l.table.shared.table_id.slots ≡ 0) };
}

impl Latch {
    /// A latch on which nothing was posted, and its taker, which gave out no device and took
    /// nothing. All its words are 0, since no other view is there yet
    /// ([`steps_keep_the_rule`](crate::laws::steps_keep_the_rule)).
    ///
    /// # Errors
    ///
    /// `NoMemory`.
    pub fn new(alloc: Global) -> Result<(Latch, Taker), NoMemory>
        ensures { IfOk result (λ r. r.1 ≡ new_taker r.0) }
    {
        let (table, seat) = Table::of_words(alloc, &[0, 0, 0], &())?;
        Ok((Latch { table }, Taker::of_seat(seat)))
    }
}
