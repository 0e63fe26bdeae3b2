ghost use Rattle.std.specs.Prelude.{◌≡◌, ◌+◌, ◌*◌, ◌<◌, ◌≤◌, ◌++◌, length};
ghost use Rattle.agc_word.specs.Profiles.{count_of};
ghost use Rattle.agc_text.specs.Writing.{Writes};
ghost use Rattle.agc_text.specs.Replies.{words_text};
ghost use Rattle.agc_text.specs.Report.{words_at, set_text, set_line, count_text, line_text};
ghost use Rattle.agc_text.specs.Report.{full_line, sets_count_text, sets_text, lines_text};
ghost use Rattle.agc_text.specs.Report.{report_text};

use crate::fault::Output;
use crate::numerals::{add_number, add_words};
use crate::writing::put;
use agc_machine::Totals;
use agc_word::layout::{FAILREG, LST1, LST2, NEWJOB, PHASE_WORDS, TIME3, USE_WORDS, set_place};
use agc_word::{Sets, Word};
use arrayvec::ArrayString;
use std::io::Write;

/// The lines after those of the core sets.
#[derive(Clone, Copy)]
enum ReportLine {
    Vac,
    Newjob,
    Time3,
    Lst1,
    Lst2,
    Phase,
    Failreg,
    Served,
    Alarms,
    Restarts,
}

const REPORT_LINES: [ReportLine; 10] = [
    ReportLine::Vac,
    ReportLine::Newjob,
    ReportLine::Time3,
    ReportLine::Lst1,
    ReportLine::Lst2,
    ReportLine::Phase,
    ReportLine::Failreg,
    ReportLine::Served,
    ReportLine::Alarms,
    ReportLine::Restarts,
];

/// `count` words, from a place on.
fn words_at(words: &[Word], place: usize, count: usize) -> &[Word]
    requires { place + count ≤ length words.now }
    ensures words { result.now ≡ words_at place count words.now }
    ensures len { length result.now ≡ count }
{
    &words[place..place + count]
}

/// Appends the words of a core set, or that it is free.
fn add_set(line: &mut ArrayString<128>, set: &[Word])
    requires set { length set.now ≡ 12 }
    requires room { length line.old.bytes + 72 ≤ 128 }
    ensures text { line.new.bytes ≡ line.old.bytes ++ set_text set.now }
    ensures len { length line.new.bytes ≤ length line.old.bytes + 72 }
{
    if set[11].is_minus_zero() {
        line.push_str(" FREE");
    } else {
        add_words(line, set);
    }
}

#[tactic(auto, unfolding(crate::specs::Report::set_line))]
fn set_line(words: &[Word], set: usize) -> ArrayString<128>
    requires all { length words.now ≡ 144 }
    requires set { set < 8 }
    ensures { result.bytes ≡ set_line words.now set }
{
    let mut line = ArrayString::new();
    line.push_str("SET ");
    add_number(&mut line, set as u64);
    add_set(&mut line, words_at(words, set_place(set), 12));
    line.push('\n');
    line
}

fn put_set<W: Write>(words: &[Word], set: usize, writer: &mut W) -> Result<(), Output>
    requires all { length words.now ≡ 144 }
    requires set { set < 8 }
    ensures { Writes (W.contents writer.old) (W.contents writer.new) (set_line words.now set)
        result }
{
    put(writer, set_line(words, set).as_bytes())
}

/// Writes the lines of this many core sets.
fn put_sets<W: Write>(sets: usize, words: &[Word], writer: &mut W) -> Result<(), Output>
    requires all { length words.now ≡ 144 }
    requires sets { sets ≤ 8 }
    ensures { Writes (W.contents writer.old) (W.contents writer.new)
        (sets_text sets words.now) result }
{
    for set in 0..sets {
        put_set(words, set, writer)?;
    }
    Ok(())
}

/// Appends a count, after a space.
pub(crate) fn add_count(line: &mut ArrayString<128>, count: u64)
    requires { length line.old.bytes + 21 ≤ 128 }
    ensures text { line.new.bytes ≡ line.old.bytes ++ count_text count }
    ensures len { length line.new.bytes ≤ length line.old.bytes + 21 }
{
    line.push(' ');
    add_number(line, count);
}

/// Appends a table's name and its words.
fn add_table(line: &mut ArrayString<128>, name: &str, words: &[Word])
    requires { length line.old.bytes + length name.now + 6 * length words.now ≤ 128 }
    ensures text { line.new.bytes ≡ line.old.bytes ++ name.now ++ words_text words.now }
    ensures len { length line.new.bytes
        ≡ length line.old.bytes + length name.now + 6 * length words.now }
{
    line.push_str(name);
    add_words(line, words);
}

fn add_alarms(line: &mut ArrayString<128>, totals: &Totals)
    requires { length line.old.bytes + 63 ≤ 128 }
    ensures text { line.new.bytes ≡ line.old.bytes ++ count_text totals.now.a1201
        ++ count_text totals.now.a1202 ++ count_text totals.now.a1203 }
    ensures len { length line.new.bytes ≤ length line.old.bytes + 63 }
{
    add_count(line, totals.a1201);
    add_count(line, totals.a1202);
    add_count(line, totals.a1203);
}

/// Appends a line, without its end.
#[tactic(auto, unfolding(crate::specs::Report::line_text))]
fn add_line(text: &mut ArrayString<128>, line: ReportLine, words: &[Word], totals: &Totals)
    requires all { length words.now ≡ 144 }
    requires room { length text.old.bytes ≡ 0 }
    ensures text { text.new.bytes ≡ text.old.bytes ++ line_text words.now totals.now line }
    ensures len { length text.new.bytes ≤ 112 }
{
    match line {
        ReportLine::Vac => add_table(text, "VAC", words_at(words, USE_WORDS, 5)),
        ReportLine::Newjob => add_table(text, "NEWJOB", words_at(words, NEWJOB, 1)),
        ReportLine::Time3 => add_table(text, "TIME3", words_at(words, TIME3, 1)),
        ReportLine::Lst1 => add_table(text, "LST1", words_at(words, LST1, 8)),
        ReportLine::Lst2 => add_table(text, "LST2", words_at(words, LST2, 18)),
        ReportLine::Phase => add_table(text, "PHASE", words_at(words, PHASE_WORDS, 12)),
        ReportLine::Failreg => add_table(text, "FAILREG", words_at(words, FAILREG, 3)),
        ReportLine::Served => {
            text.push_str("SERVED");
            add_count(text, totals.served);
        }
        ReportLine::Alarms => {
            text.push_str("ALARMS");
            add_alarms(text, totals);
        }
        ReportLine::Restarts => {
            text.push_str("RESTARTS");
            add_count(text, totals.restarts);
        }
    }
}

#[tactic(auto, unfolding(crate::specs::Report::full_line))]
fn full_line(line: ReportLine, words: &[Word], totals: &Totals) -> ArrayString<128>
    requires { length words.now ≡ 144 }
    ensures { result.bytes ≡ full_line words.now totals.now line }
{
    let mut text = ArrayString::new();
    add_line(&mut text, line, words, totals);
    text.push('\n');
    text
}

fn put_line<W: Write>(
    line: ReportLine,
    words: &[Word],
    totals: &Totals,
    writer: &mut W,
) -> Result<(), Output>
    requires { length words.now ≡ 144 }
    ensures { Writes (W.contents writer.old) (W.contents writer.new)
        (full_line words.now totals.now line) result }
{
    put(writer, full_line(line, words, totals).as_bytes())
}

fn put_lines<W: Write>(words: &[Word], totals: &Totals, writer: &mut W) -> Result<(), Output>
    requires { length words.now ≡ 144 }
    ensures { Writes (W.contents writer.old) (W.contents writer.new)
        (lines_text words.now totals.now) result }
{
    for line in REPORT_LINES {
        put_line(line, words, totals, writer)?;
    }
    Ok(())
}

/// The line that says how many core sets there are; with seven there is none.
fn sets_count_line(sets: Sets) -> &'static str
    ensures { result.now ≡ sets_count_text (count_of sets) }
{
    match sets {
        Sets::Seven => "",
        Sets::Eight => "SETS 8\n",
    }
}

/// Writes the report of a machine's words and totals, of this many core sets: a line for each core
/// set, the VAC areas' use words, NEWJOB, TIME3, LST1, LST2, the phase words, FAILREG, and the
/// counts. With eight sets they come after a line `SETS 8`. A set whose PRIORITY is 77777 is
/// written as `FREE`. Words are five octal digits, counts are decimal. The writer is not flushed.
///
/// # Errors
///
/// If a write fails, or takes nothing of what is left. A front of the report was then written.
pub fn report<W: Write>(
    sets: Sets,
    words: &[Word; 144],
    totals: &Totals,
    writer: &mut W,
) -> Result<(), Output>
    ensures { Writes (W.contents writer.old) (W.contents writer.new)
        (report_text (count_of sets) words.now totals.now) result }
{
    let words = &words[..];
    put(writer, sets_count_line(sets).as_bytes())?;
    put_sets(sets.count(), words, writer)?;
    put_lines(words, totals, writer)
}
