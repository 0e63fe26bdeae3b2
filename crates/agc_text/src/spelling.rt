// Requests, actions, tasks and answers as texts, without a line end.
ghost use Rattle.std.specs.Prelude.{◌≡◌, ◌+◌, ◌≤◌, ◌∷◌, ◌++◌, length, codes};
ghost use Rattle.std.specs.Fmt.{decimal};
ghost use Rattle.agc_text.specs.Numbers.{octal};
ghost use Rattle.agc_text.specs.Lines.{entry_text, line_of, task_text};

use crate::numerals::{add_number, add_octal_digit, add_priority, add_word};
use crate::replies::answer_text;
use crate::text_writer::{Field, TextWriter};
use agc_machine::Refusal;
use agc_plan::{
    Action, Address, Alarm, Delay, Entry, Fired, Group, Phase, Place, Priority, Reply, Request,
    Task, action_request,
};
use agc_word::Word;
use arrayvec::ArrayString;
use std::io::Write;

/// How the text of a request begins.
fn text_start(words: &str) -> ArrayString<64>
    requires { length words.now ≤ 8 }
    ensures text { result.bytes ≡ words.now }
    ensures len { length result.bytes ≤ 8 }
{
    let mut text = ArrayString::new();
    text.push_str(words);
    text
}

/// Appends an address and a bank word, each after a space.
fn add_place(text: &mut ArrayString<64>, at: u16, bank: Word)
    requires { length text.old.bytes + 12 ≤ 64 }
    ensures { text.new.bytes ≡ text.old.bytes ++ 32 ∷ octal 5 at ++ 32 ∷ octal 5 bank }
{
    text.push(' ');
    add_word(text, at);
    text.push(' ');
    add_word(text, bank.bits());
}

/// The text of a request for a job.
fn job_text(words: &str, priority: Priority, entry: Entry) -> ArrayString<64>
    requires { length words.now ≤ 8 }
    ensures { result.bytes ≡ words.now ++ entry_text priority entry }
{
    let mut text = text_start(words);
    add_priority(&mut text, priority.get() as u16);
    add_place(&mut text, entry.at.get(), entry.bank);
    text
}

/// The text of a listing.
fn listing_text(delay: Delay, task: Task) -> ArrayString<64>
    ensures { result.bytes ≡ codes "list " ++ task_text delay task }
{
    let mut text = text_start("list ");
    add_number(&mut text, delay.get() as u64);
    add_place(&mut text, task.at.get(), task.bank);
    text
}

/// The text of a request that has an address.
fn address_text(words: &str, at: Address) -> ArrayString<64>
    requires { length words.now ≤ 8 }
    ensures { result.bytes ≡ words.now ++ octal 5 at }
{
    let mut text = text_start(words);
    add_word(&mut text, at.get());
    text
}

/// The text of a change of priority.
fn prio_text(priority: Priority) -> ArrayString<64>
    ensures { result.bytes ≡ codes "prio " ++ octal 2 priority }
{
    let mut text = text_start("prio ");
    add_priority(&mut text, priority.get() as u16);
    text
}

/// The text of a word for the running job.
fn store_text(place: Place, word: Word) -> ArrayString<64>
    ensures { result.bytes ≡ codes "store " ++ octal 1 place ++ 32 ∷ octal 5 word }
{
    let mut text = text_start("store ");
    add_octal_digit(&mut text, place.get() as u16);
    text.push(' ');
    add_word(&mut text, word.bits());
    text
}

/// The text of a change of phase.
fn phase_text(group: Group, phase: Phase) -> ArrayString<64>
    ensures { result.bytes ≡ codes "phase " ++ octal 1 group ++ 32 ∷ decimal phase }
{
    let mut text = text_start("phase ");
    add_octal_digit(&mut text, group.get() as u16);
    text.push(' ');
    add_number(&mut text, phase.get() as u64);
    text
}

/// A request as a script has it.
pub fn request_text(request: &Request) -> ArrayString<64>
    ensures { result.bytes ≡ line_of request.now }
{
    match *request {
        Request::Novac(priority, entry) => job_text("novac ", priority, entry),
        Request::Findvac(priority, entry) => job_text("findvac ", priority, entry),
        Request::EndOfJob => text_start("end"),
        Request::Sleep(at) => address_text("sleep ", at),
        Request::Rouse(at) => address_text("rouse ", at),
        Request::Prio(priority) => prio_text(priority),
        Request::Change => text_start("change"),
        Request::Store(place, word) => store_text(place, word),
        Request::List(delay, task) => listing_text(delay, task),
        Request::Tick => text_start("tick"),
        Request::SetPhase(group, phase) => phase_text(group, phase),
        Request::Restart => text_start("restart"),
        Request::Fresh => text_start("fresh"),
    }
}

/// Writes a request as a script has it.
pub fn put_request<W: Write>(out: &mut TextWriter<W>, request: &Request) {
    let text = request_text(request);
    out.text(text.as_str());
}

/// Writes an action as a bench has it.
pub fn put_action<W: Write>(out: &mut TextWriter<W>, action: Action) {
    match action_request(action) {
        None => out.text("nothing"),
        Some(request) => put_request(out, &request),
    }
}

/// Writes a task: its address and its bank.
pub fn put_task<W: Write>(out: &mut TextWriter<W>, task: Task) {
    let (at, bank) = (task.at.get(), task.bank.bits());
    out.put("{}/{}", &[Field::Octal(at), Field::Octal(bank)]);
}

/// The code of an alarm. Source: ALARM.
pub fn alarm_code(alarm: Alarm) -> &'static str {
    match alarm {
        Alarm::A1201 => "1201",
        Alarm::A1202 => "1202",
        Alarm::A1203 => "1203",
    }
}

/// Writes an answer as `agc` spells it, of a tick with the tasks that fired.
pub fn put_answer<W: Write>(
    out: &mut TextWriter<W>,
    answer: &Result<Reply, Refusal>,
    fired: &Fired,
) {
    let text = answer_text(answer, fired);
    out.add(Field::Bytes(text.as_slice()));
}
