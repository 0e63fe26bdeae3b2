// The table that ties what a desk knows of its history to what the holders of its shares know. It
// has one word, which never changes: all that its steps change is what its seats know, which has no
// bytes.
ghost use Rattle.std.specs.Prelude.{◌≡◌, ◌<◌, ◌+◌, ◌++◌, ◌∷◌, [], ℕ, true, All, nat_eq, false};
ghost use Rattle.std.specs.List.{list_any};
ghost use Rattle.agc_desk.specs.History.{calls_by, new_holder};
ghost use Rattle.agc_desk.specs.Views.{call_by, hearing, joined, nobody, owner, with_call};
ghost use Rattle.agc_desk.specs.Knowing.{knower};

use agc_machine::{Answer, NoMemory};
use agc_plan::Line;
use atomic_table::{Join, Play, Seat, Split, Table, TableRule};
use std::alloc::Global;
use std::collections::LinkedList;
use std::marker::{Brand, PhantomData};

/// With which share a request was asked, what it was, and its answer. No value of this type is ever
/// made: the history of a desk exists only in proofs.
pub struct Call {
    /// The share's number.
    pub by: u64,
    /// The request and its answer.
    pub answer: Answer,
    /// Of which line's pulse it is, if it is a pulse's.
    pub pulse: Option<Line>,
}

/// The knowledge of a seat. No value of it is made.
pub struct View {
    pub keeps: bool,
    pub calls: LinkedList<Call>,
    pub given: u64,
    pub gathered: LinkedList<u64>,
    pub owns: bool,
    pub number: u64,
    pub heard: LinkedList<Call>,
    pub drains: u64,
}

/// Which answer is noted, and of which line's pulse. A call with `Brand` picks both.
trait Noting {
    ghost use Rattle.std.specs.Prelude.{Option};
    ghost use Rattle.agc_plan.specs.declared.line.Line.{Line};
    ghost use Rattle.agc_machine.specs.Said.{Said};

    ghost answer: { Said };

    ghost pulse: { Option Line };
}

impl Noting for Brand {
    ghost use Rattle.std.specs.Prelude.{None};
    ghost use Rattle.agc_desk.specs.Unpicked.{no_answer};

    ghost answer = { no_answer };

    ghost pulse = { None };
}

/// The rule of the table.
pub struct Law;

impl TableRule<u64, View, ()> for Law {
    ghost use Rattle.std.specs.Prelude.{[]};
    ghost use Rattle.agc_desk.specs.Views.{Kept};
    ghost use Rattle.agc_desk.specs.Knowing.{knower};

    ghost holds = { λ _ s. Kept s.views };

    ghost first = { λ _. knower [] 0 [] };
}

pub(crate) type Ties = Table<u64, View, (), Law, Global>;

pub(crate) type TieSeat = Seat<u64, View>;

/// Gives out a number.
struct Dealing;

impl Split<View> for Dealing {
    ghost use Rattle.std.specs.Prelude.{[], ◌+◌};
    ghost use Rattle.agc_desk.specs.Views.{owner};
    ghost use Rattle.agc_desk.specs.History.{new_holder};
    ghost use Rattle.agc_desk.specs.Knowing.{knower};

    ghost left = { λ v. knower v.calls (v.given + 1) v.gathered };

    ghost right = { λ v. owner (new_holder v.given) };
}

/// Gives a seat that knows nothing.
struct Spare;

impl Split<View> for Spare {
    ghost use Rattle.agc_desk.specs.Views.{nobody};

    ghost left = { λ v. v };

    ghost right = { λ _. nobody };
}

/// Takes in what a share knows.
struct Taking;

impl Join<View> for Taking {
    ghost use Rattle.agc_desk.specs.Views.{joined, nobody};

    ghost both = { joined };

    ghost spent = { nobody };
}

/// Adds a call, and gives back what the share knows.
struct Adding<J: Noting> {
    of: PhantomData<J>,
}

impl<J: Noting> Split<View> for Adding<J> {
    ghost use Rattle.std.specs.Prelude.{[], ◌∷◌, ◌++◌};
    ghost use Rattle.agc_desk.specs.Views.{call_by, hearing, with_call};
    ghost use Rattle.agc_desk.specs.Knowing.{knower};

    ghost left = { λ v. with_call v (call_by v J.answer J.pulse) };

    ghost right = { λ v. hearing v (call_by v J.answer J.pulse) };
}

/// Gathers the number of the share that was taken in.
struct Gathering;

impl Play<u64, View> for Gathering {
    ghost use Rattle.agc_desk.specs.Views.{Gathered};

    ghost then = { Gathered };
}

/// Counts one drain more.
struct Counting;

impl Play<u64, View> for Counting {
    ghost use Rattle.agc_desk.specs.Views.{Counted};

    ghost then = { Counted };
}

/// Tells what the desk knows.
struct Checking;

impl Play<u64, View> for Checking {
    ghost use Rattle.agc_desk.specs.Views.{Checked};

    ghost then = { Checked };
}

/// A table for a history of no calls, and the desk's seat.
pub(crate) fn open_ties(alloc: Global) -> Result<(Ties, TieSeat), NoMemory>
    ensures { Rattle.std.specs.Prelude.IfOk result
        (λ r. (0 < r.0.shared.table_id.words) × (r.1.table_id ≡ r.0.shared.table_id)
        × (r.1.me ≡ (knower [] 0 [], []))) }
{
    Ok(Ties::of_words(alloc, &[0], &())?)
}

/// A new number's seat.
pub(crate) fn deal(ties: &Ties, keeper: &mut TieSeat) -> TieSeat
    requires table { (keeper.old.table_id ≡ ties.now.shared.table_id)
        × (0 < ties.now.shared.table_id.words) }
    requires keeps { keeper.old.me.0.keeps ≡ true }
    ensures keeper { (keeper.new.table_id ≡ keeper.old.table_id)
        × (keeper.new.me ≡ (
          knower keeper.old.me.0.calls (keeper.old.me.0.given + 1)
              keeper.old.me.0.gathered,
          keeper.old.me.1,
        )) }
    ensures pass { (result.table_id ≡ keeper.old.table_id)
        × (result.me ≡ (owner (new_holder keeper.old.me.0.given), [])) }
{
    ties.shared.split_seat::<Dealing>(keeper)
}

/// Adds a call under the pass's number to the history, and its answer to what the pass knows.
fn noted<J: Noting>(
    ties: &Ties,
    keeper: &mut TieSeat,
    pass: TieSeat,
    answer: &Answer,
    pulse: Option<Line>,
) -> TieSeat
    requires answer { answer.now ≡ J.answer }
    requires pulse { pulse ≡ J.pulse }
    requires table { (keeper.old.table_id ≡ ties.now.shared.table_id)
        × (pass.table_id ≡ ties.now.shared.table_id) × (0 < ties.now.shared.table_id.words) }
    requires keeps { keeper.old.me.0.keeps ≡ true }
    requires owns { (pass.me.0.owns ≡ true) × (pass.me.1 ≡ []) }
    ensures keeper { (keeper.new.table_id ≡ keeper.old.table_id)
        × (keeper.new.me
        ≡ (with_call keeper.old.me.0 (call_by pass.me.0 answer.now pulse), keeper.old.me.1)) }
    ensures pass { (result.table_id ≡ pass.table_id)
        × (result.me ≡ (hearing pass.me.0 (call_by pass.me.0 answer.now pulse), [])) }
{
    let _ = answer;
    let _ = pulse;
    ties.shared.join_seat::<Taking>(keeper, pass);
    ties.shared.split_seat::<Adding<J>>(keeper)
}

/// Adds a call under the pass's number to the history, and its answer to what the pass knows.
pub(crate) fn note(
    ties: &Ties,
    keeper: &mut TieSeat,
    pass: &mut TieSeat,
    answer: &Answer,
    pulse: Option<Line>,
)
    requires table { (keeper.old.table_id ≡ ties.now.shared.table_id)
        × (pass.old.table_id ≡ ties.now.shared.table_id) × (0 < ties.now.shared.table_id.words) }
    requires keeps { keeper.old.me.0.keeps ≡ true }
    requires owns { (pass.old.me.0.owns ≡ true) × (pass.old.me.1 ≡ []) }
    ensures keeper { (keeper.new.table_id ≡ keeper.old.table_id)
        × (keeper.new.me
        ≡ (with_call keeper.old.me.0 (call_by pass.old.me.0 answer.now pulse), keeper.old.me.1)) }
    ensures pass { (pass.new.table_id ≡ pass.old.table_id)
        × (pass.new.me ≡ (hearing pass.old.me.0 (call_by pass.old.me.0 answer.now pulse), [])) }
{
    let spare = ties.shared.split_seat::<Spare>(keeper);
    let own = std::mem::replace(pass, spare);
    *pass = noted::<Brand>(ties, keeper, own, answer, pulse);
}

/// Counts one drain more with the pass.
pub(crate) fn count(ties: &Ties, pass: &mut TieSeat)
    requires { (pass.old.table_id ≡ ties.now.shared.table_id)
        × (0 < ties.now.shared.table_id.words) }
    ensures table { pass.new.table_id ≡ pass.old.table_id }
    ensures pass { pass.new.me ≡
        (record pass.old.me.0 { drains = pass.old.me.0.drains + 1 }, pass.old.me.1) }
{
    ties.shared.load::<Counting>(pass, 0);
}

/// Gathers the pass's number: what the pass knows is what the history has of it, and no other pass
/// has it.
pub(crate) fn gather(ties: &Ties, keeper: &mut TieSeat, pass: TieSeat)
    requires table { (keeper.old.table_id ≡ ties.now.shared.table_id)
        × (pass.table_id ≡ ties.now.shared.table_id) × (0 < ties.now.shared.table_id.words) }
    requires keeps { keeper.old.me.0.keeps ≡ true }
    requires owns { (pass.me.0.owns ≡ true) × (pass.me.1 ≡ []) }
    ensures keeper { (keeper.new.table_id ≡ keeper.old.table_id)
        × (keeper.new.me ≡ (
          knower keeper.old.me.0.calls keeper.old.me.0.given
              (keeper.old.me.0.gathered ++ pass.me.0.number ∷ []),
          keeper.old.me.1,
        )) }
    ensures heard { calls_by pass.me.0.number keeper.old.me.0.calls ≡ pass.me.0.heard }
    ensures given_out { pass.me.0.number < keeper.old.me.0.given }
    ensures apart { list_any (nat_eq pass.me.0.number) keeper.old.me.0.gathered ≡ false }
{
    ties.shared.join_seat::<Taking>(keeper, pass);
    ties.shared.load::<Gathering>(keeper, 0);
}

/// All calls of the history are of numbers that were given out.
pub(crate) fn check(ties: &Ties, keeper: &mut TieSeat)
    requires table { (keeper.old.table_id ≡ ties.now.shared.table_id)
        × (0 < ties.now.shared.table_id.words) }
    requires keeps { keeper.old.me.0.keeps ≡ true }
    ensures same { (keeper.new.table_id ≡ keeper.old.table_id) × (keeper.new.me ≡ keeper.old.me) }
    ensures below { All (λ call. call.by < keeper.old.me.0.given) keeper.old.me.0.calls }
{
    ties.shared.load::<Checking>(keeper, 0);
}
