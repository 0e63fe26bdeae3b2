ghost use Rattle.std.specs.Prelude.{◌≡◌, ◌+◌, ◌*◌, ◌≤◌, [], ◌∷◌, ◌++◌, length, codes};
ghost use Rattle.std.specs.Prelude.{List, IfNone, IfSome};
ghost use Rattle.std.specs.Fmt.{decimal};
ghost use Rattle.std.specs.List.{flat_map};
ghost use Rattle.agc_plan.specs.declared.reply.Reply.TheVariants.{Ticked};
ghost use Rattle.agc_plan.specs.declared.request.Task.{Task};
ghost use Rattle.agc_plan.specs.Steps.{alarm_of};
ghost use Rattle.agc_text.specs.Writing.{Writes};
ghost use Rattle.agc_text.specs.Replies.{alarm_text, fired_text, end_text, reply_text, runner_text};
ghost use Rattle.agc_text.specs.Replies.{answer_text, refusal_text};

use crate::fault::Output;
use crate::numerals::octal_digit;
use crate::writing::put;
use agc_machine::Refusal;
use agc_plan::{Alarm, Fired, JobNo, Reply, Task};
use arrayvec::ArrayVec;
use std::io::Write;

// A line of a few is a text by itself, which costs nothing to spell.

fn established_line(number: JobNo) -> &'static str
    ensures text { result.now ≡ codes "job " ++ decimal number ++ 10 ∷ [] }
    ensures len { length result.now ≤ 128 }
{
    match number.get() {
        1 => "job 1\n",
        2 => "job 2\n",
        3 => "job 3\n",
        4 => "job 4\n",
        5 => "job 5\n",
        6 => "job 6\n",
        7 => "job 7\n",
        8 => "job 8\n",
        _ => unreachable!(),
    }
}

fn left_line(number: JobNo) -> &'static str
    ensures text { result.now ≡ codes "left " ++ decimal number ++ 10 ∷ [] }
    ensures len { length result.now ≤ 128 }
{
    match number.get() {
        1 => "left 1\n",
        2 => "left 2\n",
        3 => "left 3\n",
        4 => "left 4\n",
        5 => "left 5\n",
        6 => "left 6\n",
        7 => "left 7\n",
        8 => "left 8\n",
        _ => unreachable!(),
    }
}

fn roused_line(number: JobNo) -> &'static str
    ensures text { result.now ≡ codes "roused " ++ decimal number ++ 10 ∷ [] }
    ensures len { length result.now ≤ 128 }
{
    match number.get() {
        1 => "roused 1\n",
        2 => "roused 2\n",
        3 => "roused 3\n",
        4 => "roused 4\n",
        5 => "roused 5\n",
        6 => "roused 6\n",
        7 => "roused 7\n",
        8 => "roused 8\n",
        _ => unreachable!(),
    }
}

fn runs_line(number: JobNo) -> &'static str
    ensures text { result.now ≡ codes "runs " ++ decimal number ++ 10 ∷ [] }
    ensures len { length result.now ≤ 128 }
{
    match number.get() {
        1 => "runs 1\n",
        2 => "runs 2\n",
        3 => "runs 3\n",
        4 => "runs 4\n",
        5 => "runs 5\n",
        6 => "runs 6\n",
        7 => "runs 7\n",
        8 => "runs 8\n",
        _ => unreachable!(),
    }
}

fn alarm_line(alarm: Alarm) -> &'static str
    ensures text { result.now ≡ alarm_text alarm ++ 10 ∷ [] }
    ensures len { length result.now ≤ 128 }
{
    match alarm {
        Alarm::A1201 => "alarm 1201\n",
        Alarm::A1202 => "alarm 1202\n",
        Alarm::A1203 => "alarm 1203\n",
    }
}

fn refusal_line(refusal: Refusal) -> &'static str
    ensures text { result.now ≡ refusal_text refusal ++ 10 ∷ [] }
    ensures len { length result.now ≤ 128 }
{
    match refusal {
        Refusal::Spent => "refused spent\n",
        Refusal::LogFull => "refused log full\n",
    }
}

/// The end of a tick's line.
fn line_end(alarm: Option<Alarm>) -> &'static str
    ensures text { result.now ≡ end_text alarm ++ 10 ∷ [] }
    ensures len { length result.now ≤ 12 }
{
    match alarm {
        None => "\n",
        Some(Alarm::A1201) => " alarm 1201\n",
        Some(Alarm::A1202) => " alarm 1202\n",
        Some(Alarm::A1203) => " alarm 1203\n",
    }
}

/// A task that fired, in a line: twelve bytes at once, and not one after the other.
fn fired_piece(task: Task) -> [u8; 12]
    ensures { result ≡ fired_text task }
{
    let at = task.at.get();
    let bank = task.bank.bits();
    [
        b' ',
        octal_digit(at / 8 / 8 / 8 / 8),
        octal_digit(at / 8 / 8 / 8),
        octal_digit(at / 8 / 8),
        octal_digit(at / 8),
        octal_digit(at),
        b'/',
        octal_digit(bank / 8 / 8 / 8 / 8),
        octal_digit(bank / 8 / 8 / 8),
        octal_digit(bank / 8 / 8),
        octal_digit(bank / 8),
        octal_digit(bank),
    ]
}

/// Appends bytes for which there is room.
fn add(line: &mut ArrayVec<u8, 128>, bytes: &[u8])
    requires { length line.old.items + length bytes.now ≤ 128 }
    ensures text { line.new.items ≡ line.old.items ++ bytes.now }
    ensures len { length line.new.items ≡ length line.old.items + length bytes.now }
{
    match line.try_extend_from_slice(bytes) {
        Ok(()) => {}
        Err(_full) => unreachable!(),
    }
}

fn add_tasks(line: &mut ArrayVec<u8, 128>, fired: &Fired)
    requires { length line.old.items + 108 ≤ 128 }
    ensures text { line.new.items ≡ line.old.items ++ flat_map fired_text fired.now }
    ensures len { length line.new.items ≤ length line.old.items + 108 }
{
    for index in 0..fired.len() {
        match fired.get(index) {
            Some(task) => add(line, &fired_piece(task)),
            None => unreachable!(),
        }
    }
}

/// Makes the line of a tick.
fn fill_tick(line: &mut ArrayVec<u8, 128>, fired: &Fired, alarm: Option<Alarm>)
    requires { line.old.items ≡ [] }
    ensures { line.new.items ≡ reply_text fired.now (Ticked alarm) ++ 10 ∷ [] }
{
    add(line, "tick".as_bytes());
    add_tasks(line, fired);
    add(line, line_end(alarm).as_bytes());
}

/// Writes the line of a tick. It stands apart so that others don't pay for the line's buffer.
///
/// # Errors
///
/// If a write fails.
#[inline(never)]
fn put_tick<W: Write>(writer: &mut W, fired: &Fired, alarm: Option<Alarm>) -> Result<(), Output>
    ensures { Writes (W.contents writer.old) (W.contents writer.new)
        (reply_text fired.now (Ticked alarm) ++ 10 ∷ []) result }
{
    let mut line = ArrayVec::new();
    fill_tick(&mut line, fired, alarm);
    put(writer, line.as_slice())
}

/// The line of a job that ended or sleeps, by who runs now.
fn runner_line(runner: Option<JobNo>) -> &'static str
    ensures text { result.now ≡ codes "left " ++ runner_text runner ++ 10 ∷ [] }
    ensures len { length result.now ≤ 128 }
{
    match runner {
        Some(number) => left_line(number),
        None => "left idle\n",
    }
}

/// The line of a reply, which is one of a few. None for a tick's.
fn reply_line(reply: &Reply) -> Option<&'static str>
    ensures line { (fired : List Task) → IfSome result (λ line. line.now
        ≡ reply_text fired reply.now ++ 10 ∷ []) }
    ensures len { IfSome result (λ line. length line.now ≤ 128) }
    ensures tick { IfNone result (reply.now ≡ Ticked (alarm_of reply.now)) }
{
    match reply {
        Reply::Established(number) => Some(established_line(*number)),
        Reply::Left(runner) => Some(runner_line(*runner)),
        Reply::Roused(number) => Some(roused_line(*number)),
        Reply::NoSleeper => Some("no sleeper\n"),
        Reply::NoJob => Some("no job\n"),
        Reply::Runs(number) => Some(runs_line(*number)),
        Reply::Stored => Some("stored\n"),
        Reply::Listed => Some("listed\n"),
        Reply::Ticked(_) => None,
        Reply::Phased => Some("phased\n"),
        Reply::Restarted => Some("restarted\n"),
        Reply::Alarmed(alarm) => Some(alarm_line(*alarm)),
    }
}

/// Writes the line of a reply, of a tick with what fired.
///
/// # Errors
///
/// If a write fails.
pub fn put_reply<W: Write>(writer: &mut W, reply: Reply, fired: &Fired) -> Result<(), Output>
    ensures { Writes (W.contents writer.old) (W.contents writer.new)
        (reply_text fired.now reply ++ 10 ∷ []) result }
{
    match reply_line(&reply) {
        Some(line) => put(writer, line.as_bytes()),
        None => put_tick(writer, fired, reply.alarm()),
    }
}

/// Writes the line of a refusal.
///
/// # Errors
///
/// If a write fails.
pub(crate) fn put_refusal<W: Write>(writer: &mut W, refusal: Refusal) -> Result<(), Output>
    ensures { Writes (W.contents writer.old) (W.contents writer.new)
        (refusal_text refusal ++ 10 ∷ []) result }
{
    put(writer, refusal_line(refusal).as_bytes())
}

/// Makes the line of an answer, of a tick with what fired.
fn fill_line(line: &mut ArrayVec<u8, 128>, answer: &Result<Reply, Refusal>, fired: &Fired)
    requires { line.old.items ≡ [] }
    ensures { line.new.items ≡ answer_text fired.now answer.now ++ 10 ∷ [] }
{
    match answer {
        Err(refusal) => add(line, refusal_line(*refusal).as_bytes()),
        Ok(reply) => match reply_line(reply) {
            Some(text) => add(line, text.as_bytes()),
            None => fill_tick(line, fired, reply.alarm()),
        },
    }
}

/// An answer as a text, of a tick with what fired, without a line end.
pub fn answer_text(answer: &Result<Reply, Refusal>, fired: &Fired) -> ArrayVec<u8, 128>
    ensures { result.items ≡ answer_text fired.now answer.now }
{
    let mut line = ArrayVec::new();
    fill_line(&mut line, answer, fired);
    let _end = line.pop();
    line
}
