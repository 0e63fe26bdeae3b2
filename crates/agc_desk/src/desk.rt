ghost use Rattle.std.specs.Prelude.{◌≡◌, ◌+◌, ◌++◌, ◌∷◌, ◌↔◌, ◌<◌, ◌≤◌, ◌⊎◌, [], None, length};
ghost use Rattle.std.specs.Prelude.{All, IsOk, IsNone, IfOk, IfErr, IfSome, IfNone, OnErr, OnOk};
ghost use Rattle.std.specs.Prelude.{ℕ, false, nat_eq, true, vec_len};
ghost use Rattle.std.specs.List.{IsDistinct, list_any};
ghost use Rattle.agc_latch.specs.Accounts.{Applies, AreAll, Collects, Gives, Settles};
ghost use Rattle.agc_latch.specs.Accounts.{IsKept, IsOf, with_taker};
ghost use Rattle.agc_latch.specs.Ends.{new_device};
ghost use Rattle.agc_latch.specs.Lines.{on};
ghost use Rattle.agc_machine.specs.Machines.{IsLawful, after, said_of};
ghost use Rattle.agc_machine.specs.Told.{add, nothing, told};
ghost use Rattle.agc_desk.specs.Books.{told_in, told_to};
ghost use Rattle.agc_desk.specs.Desks.{ArePulses, new_desk, with_lines};
ghost use Rattle.agc_desk.specs.History.{IsHistory, Leads, new_holder, own_call};
ghost use Rattle.agc_desk.specs.History.{calls_by, numbers_of, with_drain, with_heard};
ghost use Rattle.agc_desk.specs.Opening.{names_of};
ghost use Rattle.agc_plan.specs.Pulses.{pulse_requests};
ghost use Rattle.agc_desk.specs.Runs.{IsGiven};
ghost use Rattle.agc_desk.specs.Stages.{Marks, NextIs};

use crate::history::{History, Own};
use crate::ledgers::{Amounts, Ledgers, growth};
use crate::names::{Blanks, Names};
use agc_latch::{Accounts, Device, Latch, Line, Settled, Taker, Unjoined};
use agc_machine::{Answer, Machine, Totals};
use agc_plan::{Request, pulse_request};
use std::marker::Model;

/// How many shares a desk gives out.
const SHARES: u64 = 64;

/// A machine, with the history of all that was asked of it, a book for each of its totals, and the
/// accounts of the lines on which devices post. Contracts see it as its machine, its history, the
/// books, how many shares were given out, and these accounts.
///
/// Of every desk it holds that the history leads to its machine from the one with which it was
/// made, that each book is the machine's total less that one's, and that on each line what is
/// applied and what is owed are the pulses of settled latches and those that its taker took. What
/// its history asked for pulses of a line, and was not refused, is all for which the applied ones
/// ask, and the first requests of one more that is begun. The history has no bytes.
#[derive(Drop)]
pub struct Desk<N: Names> {
    machine: Machine,
    since: Totals,
    ledgers: Ledgers<N>,
    history: History<N>,
    lines: Accounts,
}

impl<N: Names> Model for Desk<N> {
    ghost use Rattle.agc_desk.specs.Desks.{Desked, IsBooked};

    ghost Value = { Desked };

    ghost view = { λ d. record {
      machine = d.machine;
      history = d.history.calls;
      booked = d.ledgers.total;
      given = d.history.given;
      lines = d.lines;
    } };

    ghost invariant = { λ d.
        IsBooked N.first d.machine d.history d.since d.ledgers d.lines };
}

/// The requests of a holder to one desk, and the answers. Contracts see it as its number and these
/// answers, of which it knows only the totals when it runs.
///
/// It can't be copied, and a share of another desk has another type.
#[derive(Drop)]
pub struct Share<N: Names> {
    amounts: Amounts<N>,
    own: Own<N>,
}

impl<N: Names> Model for Share<N> {
    ghost use Rattle.std.specs.Prelude.{◌≡◌};
    ghost use Rattle.agc_desk.specs.Books.{told_in};
    ghost use Rattle.agc_desk.specs.History.{Holder};

    ghost Value = { Holder };

    ghost view = { λ s. s.own };

    ghost invariant = { λ s. s.amounts ≡ told_in s.own.heard };
}

impl<N: Names> Share<N> {
    /// The totals of the holder's answers so far.
    pub fn told(&self) -> Totals
        ensures { result ≡ told_in self.now.heard }
    {
        self.amounts.told()
    }
}

impl<N: Names> Desk<N> {
    /// A desk that gave out no share, booked nothing, of which nothing was asked, and to which no
    /// pulse came.
    pub fn new(machine: Machine, blanks: Blanks) -> Desk<N>
        requires names { names_of blanks ≡ N.names }
        requires first { machine ≡ N.first }
        ensures { result ≡ new_desk machine }
    {
        let since = machine.totals();
        let (ledgers, opened) = Ledgers::open(blanks);
        Desk {
            machine,
            since,
            ledgers,
            history: History::open(opened),
            lines: Accounts::new(),
        }
    }

    /// The machine.
    pub fn machine(&self) -> &Machine
        ensures machine { result.now ≡ self.now.machine }
        ensures leads { Leads N.first self.now.history result.now }
        ensures booked { add self.now.booked N.first.totals ≡ result.now.totals }
    {
        &self.machine
    }

    /// The law of every desk, for a caller that has it under a lock, where the type alone says it:
    /// its history leads to its machine, which is lawful, its accounts of lines are kept, and they
    /// tell of the pulses of its history.
    pub(crate) fn tell_law(&self)
        ensures leads { Leads N.first self.now.history self.now.machine }
        ensures lawful { IsLawful self.now.machine }
        ensures kept { IsKept self.now.lines }
        ensures pulses { ArePulses N.first.plan self.now.history
            self.now.lines.applied self.now.lines.begun }
    {
        // Reading a field brings what its type always says into the proof.
        let _ = self.machine.totals();
        let _ = self.lines.owed();
    }

    /// A share with which nothing was asked, of the least number that was not given out; none where
    /// 64 were.
    pub fn share(&mut self) -> Option<Share<N>>
        ensures none { IsNone result ↔ (self.old.given ≡ 64) }
        ensures share { IfSome result (λ s. s ≡ new_holder self.old.given) }
        ensures given { IfSome result
            (λ s. self.new ≡ record self.old { given = self.old.given + 1 }) }
        ensures same { IfNone result (self.new ≡ self.old) }
    {
        if self.history.given() == SHARES {
            return None;
        }
        Some(Share {
            amounts: self.ledgers.part(),
            own: self.history.part(),
        })
    }

    /// Asks the machine, and books what its answer adds to the totals, in the share and in the
    /// desk's books. The request and its answer are appended to the history, not on behalf of any
    /// line's pulse, and to what the share's holder heard. A refusal is the answer's result, and
    /// books nothing. Which answers have an alarm, the law
    /// [`alarm_where_its_table_is_full`](agc_machine::laws::alarm_where_its_table_is_full) says.
    pub fn serve(&mut self, share: &mut Share<N>, request: Request) -> Answer
        ensures answer { result ≡ said_of self.old.machine request }
        ensures lawful { IsLawful self.old.machine }
        ensures given { IsGiven N.first result }
        ensures heard { share.new ≡ with_heard (own_call share.old.number result ∷ []) share.old }
        ensures desk { self.new ≡ record self.old {
          machine = after self.old.machine request;
          history = self.old.history ++ own_call share.old.number result ∷ [];
          booked = add self.old.booked (told result.outcome);
        } }
    {
        self.ask_for(share, request, None)
    }

    /// Serves a request of a caller, or the one that a pulse of this line asks for, as
    /// [`Desk::serve`] does; the pulse, which is owed, is applied where it isn't refused.
    pub(crate) fn ask_for(
        &mut self,
        share: &mut Share<N>,
        request: Request,
        pulse: Option<Line>,
    ) -> Answer
        requires asks { IfSome pulse (λ line.
            NextIs self.old.machine.plan line self.old.lines request) }
        requires owed { IfSome pulse (λ line. 1 ≤ on line self.old.lines.owed) }
        ensures answer { result ≡ said_of self.old.machine request }
        ensures lawful { IsLawful self.old.machine }
        ensures given { IsGiven N.first result }
        ensures heard { share.new ≡ with_heard (record
            { by = share.old.number; answer = result; pulse = pulse } ∷ []) share.old }
        ensures desk { self.new
            ≡ with_lines self.new.lines
            (record self.old {
              machine = after self.old.machine request;
              history = self.old.history
                  ++ record { by = share.old.number; answer = result; pulse = pulse } ∷ [];
              booked = add self.old.booked (told result.outcome);
            }) }
        ensures lines { Marks self.old.machine.plan pulse result.outcome
            self.old.lines self.new.lines }
    {
        let before = self.machine.totals();
        let answer = self.machine.apply(request);
        let told = growth(before, self.machine.totals());
        self.ledgers.add(&mut share.amounts, told);
        self.history.note(&mut share.own, &answer, pulse);
        mark_served(&mut self.lines, &self.machine, pulse, &answer);
        answer
    }
}

// A request of a pulse was answered, if there is a pulse: where it wasn't refused, the pulse is
// begun further, or applied if it asks for no more.
fn mark_served(lines: &mut Accounts, machine: &Machine, pulse: Option<Line>, answer: &Answer)
    requires owed { IfSome pulse (λ line. 1 ≤ on line lines.old.owed) }
    requires begun { IfSome pulse (λ line.
        on line lines.old.begun < length (pulse_requests machine.now.plan line)) }
    ensures { Marks machine.now.plan pulse answer.now.outcome lines.old lines.new }
{
    let Some(line) = pulse else {
        return;
    };
    if answer.is_refused() {
        return;
    }
    if pulse_request(machine.plan(), line, lines.begun_on(line) + 1).is_some() {
        lines.begin(line);
    } else {
        lines.apply(line, 1);
    }
}

impl<N: Names> Desk<N> {
    /// Attaches a latch's taker, so that the desk drains what devices post there; where the desk
    /// has a taker, the new one is handed back and nothing changes.
    pub fn attach(&mut self, taker: Taker) -> Option<Taker>
        ensures none { IsNone result ↔ (self.old.lines.taker ≡ None) }
        ensures attached { IfNone result
            (self.new ≡ with_lines (with_taker taker self.old.lines) self.old) }
        ensures back { IfSome result (λ t. (t ≡ taker) × (self.new ≡ self.old)) }
    {
        self.lines.attach(taker)
    }

    /// A new device of the taker's latch, which may post so many pulses; none where the desk has no
    /// taker, or where 64 devices were given out over its whole life.
    pub fn device(&mut self, latch: &Latch, posts: u32) -> Option<Device>
        requires { IsOf latch.now self.old.lines.taker }
        ensures none { IsNone result
            ↔ ((self.old.lines.taker ≡ None) ⊎ (self.old.lines.devices ≡ 64)) }
        ensures device { IfSome result (λ d. d ≡ new_device latch.now posts) }
        ensures given { IfSome result (λ _. Gives self.old.lines self.new.lines) }
        ensures desk { self.new ≡ with_lines self.new.lines self.old }
        ensures same { IfNone result (self.new ≡ self.old) }
    {
        self.lines.device(latch, posts)
    }

    /// How many pulses were applied, per line: the timer's, the keyboard's, the radar's.
    pub fn applied(&self) -> [u64; 3]
        ensures applied { result ≡ self.now.lines.applied }
        ensures kept { IsKept self.now.lines }
        ensures pulses { ArePulses N.first.plan self.now.history
            self.now.lines.applied self.now.lines.begun }
    {
        self.lines.applied()
    }

    /// How many pulses were taken and not yet applied, per line.
    pub fn owed(&self) -> [u64; 3]
        ensures owed { result ≡ self.now.lines.owed }
        ensures kept { IsKept self.now.lines }
    {
        self.lines.owed()
    }

    /// The share's holder drains once more.
    pub(crate) fn count_drain(&self, share: &mut Share<N>)
        ensures { share.new ≡ with_drain share.old }
    {
        self.history.count(&mut share.own);
    }

    /// Takes each line once, and answers how many pulses it found there.
    pub(crate) fn collect(&mut self, latch: &Latch) -> [u64; 3]
        requires { IsOf latch.now self.old.lines.taker }
        ensures lines { Collects result self.old.lines self.new.lines }
        ensures desk { self.new ≡ with_lines self.new.lines self.old }
    {
        self.lines.collect(latch)
    }

    /// How many pulses of a line are owed.
    pub(crate) fn owed_on(&self, line: Line) -> u64
        ensures { result ≡ on line self.now.lines.owed }
    {
        self.lines.owed_on(line)
    }

    /// The next request for which owed pulses of a line ask.
    pub(crate) fn next_request(&self, line: Line) -> Option<Request>
        ensures some { IfSome result (λ request.
            NextIs self.now.machine.plan line self.now.lines request) }
        ensures owed { IfSome result (λ _. 1 ≤ on line self.now.lines.owed) }
        ensures none { IfNone result ((on line self.now.lines.owed ≡ 0)
            ⊎ (pulse_requests self.now.machine.plan line ≡ [])) }
    {
        if self.lines.owed_on(line) == 0 {
            return None;
        }
        pulse_request(self.machine.plan(), line, self.lines.begun_on(line))
    }

    /// Applies this many pulses of a line that were owed: they make no more requests.
    pub(crate) fn mark_applied(&mut self, line: Line, pulses: u64)
        requires idle { pulse_requests self.old.machine.plan line ≡ [] }
        requires owed { pulses ≤ on line self.old.lines.owed }
        ensures lines { Applies line pulses self.old.lines self.new.lines }
        ensures desk { self.new ≡ with_lines self.new.lines self.old }
    {
        self.lines.apply(line, pulses);
    }

    /// Settles the latch; what the lines had is kept where that is refused.
    pub(crate) fn settle_lines(
        &mut self,
        latch: Latch,
        devices: Vec<Device>,
    ) -> Result<Settled, Unjoined>
        requires taker { IsOf latch self.old.lines.taker }
        requires devices { All (λ d. d.latch ≡ latch) devices.items }
        ensures ok { IsOk result ↔ AreAll devices.items self.old.lines.taker }
        ensures lines { OnOk result (Settles devices.items self.old.lines self.new.lines) }
        ensures desk { self.new ≡ with_lines self.new.lines self.old }
        ensures posted { IfOk result (λ s. s.posted ≡ self.new.lines.settled) }
        ensures applied { IfOk result (λ s. s.applied ≡ self.new.lines.applied) }
        ensures owed { IfOk result (λ s. s.owed ≡ self.new.lines.owed) }
        ensures same { OnErr result (self.new ≡ self.old) }
        ensures back { IfErr result (λ u. (u.latch ≡ latch) × (u.devices ≡ devices)) }
    {
        self.lines.settle(latch, devices)
    }
}

/// The parts that [`gather`] hands back if it refuses: not as many shares came as the desk gave
/// out.
#[derive(Drop)]
pub struct Ungathered<N: Names> {
    /// The desk as it was.
    pub desk: Desk<N>,
    /// The shares as they were, in their order.
    pub shares: Vec<Share<N>>,
}

// A share is back: its parts of the ledgers, and its number, which was given out and wasn't back.
fn take_back<N: Names>(ledgers: &mut Ledgers<N>, history: &mut History<N>, share: Share<N>)
    ensures total { ledgers.new.total ≡ ledgers.old.total }
    ensures left { ledgers.new.left ≡ ledgers.old.left + 1 }
    ensures back { ledgers.new.back ≡ add ledgers.old.back (told_in share.heard) }
    ensures gathered { history.new
        ≡ record history.old { gathered = history.old.gathered ++ share.number ∷ [] } }
    ensures heard { calls_by share.number history.old.calls ≡ share.heard }
    ensures given_out { share.number < history.old.given }
    ensures apart { list_any (nat_eq share.number) history.old.gathered ≡ false }
{
    let Share { amounts, own } = share;
    ledgers.merge(amounts);
    history.gather(own);
}

// All shares are back, where none was.
fn take_all_back<N: Names>(
    ledgers: &mut Ledgers<N>,
    history: &mut History<N>,
    shares: Vec<Share<N>>,
)
    requires none { history.old.gathered ≡ [] }
    requires nothing { ledgers.old.back ≡ nothing }
    requires all { ledgers.old.left + length shares.items ≡ 65 }
    ensures total { ledgers.old.total ≡ told_to shares.items }
    ensures each { All (λ s. calls_by s.number history.old.calls ≡ s.heard) shares.items }
    ensures apart { IsDistinct nat_eq (numbers_of shares.items) }
    ensures below { (k : ℕ) → list_any (nat_eq k) (numbers_of shares.items) ≡ true
        → k < history.old.given }
    ensures given { All (λ call. call.by < history.old.given) history.old.calls }
{
    for share in shares {
        take_back(ledgers, history, share);
    }
    ledgers.audit();
    history.check();
}

// Ends a desk with all of its shares.
fn end_desk<N: Names>(desk: Desk<N>, shares: Vec<Share<N>>) -> (Machine, Totals)
    requires { length shares.items ≡ desk.given }
    ensures machine { result.0 ≡ desk.machine }
    ensures history { IsHistory N.first shares.items desk.history result.0 }
    ensures told { result.1 ≡ told_to shares.items }
    ensures booked { result.1 ≡ desk.booked }
    ensures pulses { ArePulses N.first.plan desk.history desk.lines.applied desk.lines.begun }
    ensures kept { IsKept desk.lines }
    ensures grown { add result.1 N.first.totals ≡ result.0.totals }
{
    desk.tell_law();
    let Desk {
        machine,
        since,
        mut ledgers,
        mut history,
        lines,
    } = desk;
    drop(lines);
    take_all_back(&mut ledgers, &mut history, shares);
    drop(history);
    drop(ledgers);
    let totals = growth(since, machine.totals());
    (machine, totals)
}

/// Ends a desk: gives its machine, unchanged, and what the holders of all its shares were told
/// together, which is what the machine's totals grew by. The history leads to that machine from the
/// one with which the desk was made; of each share's number it has just what its holder asked and
/// was answered, and it has no other calls. A taker that the desk has, and pulses that are owed,
/// end with it.
///
/// # Errors
///
/// `Ungathered` exactly where not as many shares come as the desk gave out; desk and shares come
/// back as they were.
pub fn gather<N: Names>(
    desk: Desk<N>,
    shares: Vec<Share<N>>,
) -> Result<(Machine, Totals), Ungathered<N>>
    ensures ok { IsOk result ↔ (vec_len shares ≡ desk.given) }
    ensures machine { IfOk result (λ r. r.0 ≡ desk.machine) }
    ensures history { IfOk result (λ r. IsHistory N.first shares.items desk.history r.0) }
    ensures told { IfOk result (λ r. r.1 ≡ told_to shares.items) }
    ensures booked { IfOk result (λ r. r.1 ≡ desk.booked) }
    ensures pulses { IfOk result (λ _. ArePulses N.first.plan desk.history
        desk.lines.applied desk.lines.begun) }
    ensures kept { IfOk result (λ _. IsKept desk.lines) }
    ensures grown { IfOk result (λ r. add r.1 N.first.totals ≡ r.0.totals) }
    ensures back { IfErr result (λ u. (u.desk ≡ desk) × (u.shares ≡ shares)) }
{
    if shares.len() as u64 != desk.history.given() {
        return Err(Ungathered { desk, shares });
    }
    Ok(end_desk(desk, shares))
}
