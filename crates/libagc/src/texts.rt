// The lines that `agc` writes, in room that a caller lends.
ghost use Rattle.std.specs.Prelude.{◌≡◌, ◌⊎◌};
ghost use Rattle.libagc.specs.Codes.{NoImage};
ghost use Rattle.agc_image.specs.Images.{IsImage};

use crate::fault::{Fault, image_in};
use crate::reading::task_of;
use crate::reply::AgcNumber;
use crate::steps::{AgcFired, AgcStep};
use agc_image::Rule;
use agc_machine::Totals;
use agc_plan::{Alarm, Fired, JobNo, Reply};
use agc_text::{put_reply, report};
use arrayvec::ArrayVec;

/// Counts of served requests, for the last lines of a report. The caller keeps them.
#[repr(C)]
#[derive(Clone, Copy)]
pub struct AgcTotals {
    pub served: u64,
    pub alarms_1201: u64,
    pub alarms_1202: u64,
    pub alarms_1203: u64,
    /// Requests with which an era began.
    pub restarts: u64,
}

fn job_of(number: u32) -> Option<JobNo> {
    JobNo::new(u8::try_from(number).ok()?)
}

fn alarm_of(number: u32) -> Option<Alarm> {
    match number {
        0o1201 => Some(Alarm::A1201),
        0o1202 => Some(Alarm::A1202),
        0o1203 => Some(Alarm::A1203),
        _ => None,
    }
}

/// The reply that a step tells. None if it tells none.
fn reply_of(step: &AgcStep) -> Option<Reply> {
    match step.reply {
        1 => Some(Reply::Established(job_of(step.number)?)),
        2 => Some(Reply::Left(Some(job_of(step.number)?))),
        3 => Some(Reply::Left(None)),
        4 => Some(Reply::Roused(job_of(step.number)?)),
        5 => Some(Reply::NoSleeper),
        6 => Some(Reply::NoJob),
        7 => Some(Reply::Runs(job_of(step.number)?)),
        8 => Some(Reply::Stored),
        9 => Some(Reply::Listed),
        10 => Some(Reply::Alarmed(alarm_of(step.number)?)),
        11 => Some(Reply::Phased),
        12 => Some(Reply::Ticked(None)),
        13 => Some(Reply::Ticked(Some(alarm_of(step.number)?))),
        14 => Some(Reply::Restarted),
        _ => None,
    }
}

/// The first tasks of those that fired. None if one of them is no task, or there are more than
/// nine.
fn fired_of(fired: &[AgcFired; 9], count: u32) -> Option<Fired> {
    let mut list = Fired::new();
    for k in 0..9usize {
        if k < count as usize {
            list.push(task_of(fired[k].at, fired[k].bank)?);
        }
    }
    if count > 9 { None } else { Some(list) }
}

/// Writes a text into room that is lent, if it fits: how many bytes it has.
fn hand_out(line: &[u8], text: &mut [u8]) -> AgcNumber
    ensures code { (result.code ≡ 0) ⊎ (result.code ≡ 14) }
    ensures with_fault { ¬ (result.code ≡ 0) → text.new ≡ text.old }
{
    let number = u32::try_from(line.len()).unwrap_or(0);
    if line.len() > text.len() {
        return AgcNumber {
            code: Fault::NoRoom.code(),
            number,
        };
    }
    text[..line.len()].copy_from_slice(line);
    AgcNumber::of(number)
}

/// Writes the line that `agc` writes for a step's reply, with its end and no zero byte, at most 128
/// bytes: code 0 and how many bytes; 14 and how many it wants if they don't fit, and then nothing
/// is written; 4 if it is of no kind, or names no job or alarm though its kind does, where more
/// than nine tasks fired, or where one that fired is none.
#[unsafe(no_mangle)]
pub extern "C" fn agc_write_reply(
    step: &AgcStep,
    fired: &[AgcFired; 9],
    text: &mut [u8],
) -> AgcNumber
    ensures with_fault { ¬ (result.code ≡ 0) → text.new ≡ text.old }
{
    let mut line: ArrayVec<u8, 128> = ArrayVec::new();
    match (reply_of(step), fired_of(fired, step.fired)) {
        (Some(reply), Some(list)) => match put_reply(&mut line, reply, &list) {
            Ok(()) => hand_out(line.as_slice(), text),
            Err(_output) => AgcNumber::with_fault(Fault::OutOfRange),
        },
        _ => AgcNumber::with_fault(Fault::OutOfRange),
    }
}

/// Writes the rule of lawful words that has this number, 1 to 19, as a sentence, as
/// `agc_write_reply` does; code 4 for a number that no rule has.
#[unsafe(no_mangle)]
pub extern "C" fn agc_write_rule(rule: u32, text: &mut [u8]) -> AgcNumber
    ensures refused { ¬ (result.code ≡ 0) → text.new ≡ text.old }
{
    match Rule::sentence(rule) {
        Some(sentence) => hand_out(sentence.as_bytes(), text),
        None => AgcNumber::with_fault(Fault::OutOfRange),
    }
}

/// Writes the report that `agc` writes of these words and counts, at most 2048 bytes, as
/// `agc_write_reply` does; code 1, 2 or 3 if the array has no image.
#[unsafe(no_mangle)]
pub extern "C" fn agc_write_report(
    words: &[u16; 144],
    sets: u32,
    totals: &AgcTotals,
    text: &mut [u8],
) -> AgcNumber
    ensures code { (IsImage sets words.now
        × ((result.code ≡ 0) ⊎ (result.code ≡ 4) ⊎ (result.code ≡ 14)))
        ⊎ NoImage result.code sets words.now }
    ensures with_fault { ¬ (result.code ≡ 0) → text.new ≡ text.old }
{
    match image_in(words, sets) {
        Err(fault) => AgcNumber::with_fault(fault),
        Ok(image) => {
            let totals = Totals {
                served: totals.served,
                a1201: totals.alarms_1201,
                a1202: totals.alarms_1202,
                a1203: totals.alarms_1203,
                restarts: totals.restarts,
            };
            let mut lines: ArrayVec<u8, 2048> = ArrayVec::new();
            match report(image.sets(), &image.words(), &totals, &mut lines) {
                Ok(()) => hand_out(lines.as_slice(), text),
                Err(_output) => AgcNumber::with_fault(Fault::OutOfRange),
            }
        }
    }
}
