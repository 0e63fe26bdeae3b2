//! The sentences about findings in a bench.
use crate::finding::Findings;
use crate::line::{LineFault, fault_of, is_like_script};
use crate::line_form::{
    ACTIONS, JOBS, LEAVINGS, LISTINGS, LineForm, LineWord, NO_REQUEST, REQUESTS, STEPS,
};
use crate::messages::{
    MOST_TOLD, Message, NONE, NamedText, front_of, message_of, plain, put_message, put_more,
    put_quoted, put_where,
};
use crate::names::{HasName, meant_by, with_name};
use crate::problem::Problem;
use agc_document::rows::{
    BENCH_KEYS, DEVICE_KEYS, EXPLORED_WORKER_KEYS, NAMED_PHASE_KEYS, NAMED_TASK_KEYS, PHASE_KEYS,
    TASK_KEYS, WORKER_KEYS,
};
use agc_document::{Key, KeyFault, Kind as Valued, Level, Location, TextForm, is_name, table_of};
use agc_scenario::rows::{
    COST, COST_KEYS, EVENT_KEYS, JOB_KEYS, SCENARIO_KEYS, SECONDS, STEAL, STEAL_KEYS,
};
use agc_text::Field::{Number, Text};
use agc_text::{Buffer, Field};
use std::alloc::{AllocError, Global};
use toml::{Table, Value};

impl HasName for Key {
    fn name(self) -> &'static str {
        Key::name(self)
    }
}

const INTEGER_OR_TABLES: &str = "expected an integer, {} {} {}, or an array of at most {} tables, \
     each below its line [[{}]]";

const INTEGER_OR_TABLE: &str = "expected an integer, {} {} {}, or a table of \"from\" and \"to\"";

const TABLES: &str = "expected an array of tables, each below its line [[{}]]";

const FEW_TABLES: &str = "expected at most {} tables, each below its line [[{}]]";

const ABOVE_TABLES: &str = "unknown key \"{}{}\"; it belongs above all tables";

const OF_SCENARIO: &str = "unknown key \"{}{}\"; a scenario has it, which has \"seconds\" too";

const OF_BENCH: &str = "unknown key \"{}{}\"; a bench has it, but no scenario";

const MEANT: &str = "unknown key \"{}{}\"; did you mean \"{}\"?";

const NONE_ABOVE: &str =
    "no event above this one has that name, and it is no alarm: 1201, 1202 or 1203";

const OVERLAPS_ITSELF: &str = "\"every\" has to be at least \"to\" minus \"from\"";

const NO_SEED: &str = "a cost \"from\" .. \"to\" needs the key \"seed\" in the scenario";

const BELOW: &str = "no event above this one has that name; event {}, below, has it";

const OF_SCRIPT: &str = "this looks like a script, not a bench: add --script";

const IN_SCRIPT: &str =
    "this looks like a script; a bench has it as script = [\"..\", \"..\"], a string for each line";

const NO_ACTION: &str = "an action is nothing, or begins with novac, findvac, rouse or list";

const NO_STEP: &str =
    "before its last line a job makes requests novac, findvac, prio, store, list or phase";

/// The kinds of lines that a text of this form may be, and the sentence for one that begins like
/// none of them.
fn kinds_of(form: TextForm) -> (&'static [LineForm], &'static str) {
    match form {
        TextForm::Request => (&REQUESTS, NO_REQUEST),
        TextForm::Action => (&ACTIONS, NO_ACTION),
        TextForm::Job => (&JOBS, "a job begins with novac or findvac"),
        TextForm::Listing => (&LISTINGS, "a task begins with list"),
        TextForm::Leaving => (&LEAVINGS, "a job leaves by end or sleep"),
        TextForm::Step => (&STEPS, NO_STEP),
        TextForm::Address => (&[], LineWord::Address.spelling()),
        TextForm::Word => (&[], LineWord::Word.spelling()),
        TextForm::Device => (&[], "a line is timer, key or radar"),
        TextForm::Name => (&[], "a name is one line, without control characters"),
    }
}

/// The sentence that says which form a text should have.
fn expected_form(form: TextForm, text: &str) -> Message<'static> {
    let (kinds, other) = kinds_of(form);
    match fault_of(kinds, text) {
        fault if !kinds.is_empty() && !matches!(fault, LineFault::Unknown(None)) => {
            fault.message_of()
        }
        _ => plain(other),
    }
}

/// The sentence that says what the value of a key must be.
fn expected_value(key: Key) -> Message<'static> {
    let (low, high) = key.bounds();
    let is_pair = high.saturating_sub(low) == 1;
    let (first, last) = (Number(low), Number(high));
    let (between, name) = (Text(if is_pair { "or" } else { "to" }), name_of(key));
    let range = [first, between, last, NONE, NONE];
    match key.kind() {
        Valued::Integer(..) if key.name() == STEAL.name() => {
            (INTEGER_OR_TABLES, [first, between, last, last, name])
        }
        Valued::Integer(..) if key.name() == COST.name() => (INTEGER_OR_TABLE, range),
        Valued::Integer(..) => ("expected an integer, {} {} {}", range),
        Valued::Flag => plain("expected true or false"),
        Valued::Text(..) => plain("expected a string"),
        Valued::OneOrMore(..) => ("expected a string, or an array of {} {} {} strings", range),
        Valued::Texts(..) if low == 0 => plain("expected an array of strings"),
        Valued::Texts(..) => message_of("expected an array of {} strings", first, NONE),
        Valued::Tables(..) | Valued::OtherTables(..) if high == u64::MAX => {
            message_of(TABLES, name, NONE)
        }
        Valued::Tables(..) | Valued::OtherTables(..) => message_of(FEW_TABLES, last, name),
    }
}

/// Adds how octal digits without quotes must be written, if the finding's text is such digits.
fn put_with_quotes(out: &mut Buffer, wrong: Problem, text: &str) {
    let is_text = !matches!(
        wrong,
        Problem::NoQuotes | Problem::Key(KeyFault::Value(_) | KeyFault::Item(_))
    );
    if is_text || text.bytes().any(|byte| !matches!(byte, b'0'..=b'7')) {
        return;
    }
    if let Some(zeros) = "0000".get(text.len().wrapping_sub(1)..) {
        out.put(": write \"{}{}\"", &[Text(zeros), Text(text)]);
    }
}

/// The keys of a table of this level.
fn keys_of(level: Level) -> &'static [Key] {
    match level {
        Level::Bench => &BENCH_KEYS,
        Level::Task => &TASK_KEYS,
        Level::Phase => &PHASE_KEYS,
        Level::Worker => &WORKER_KEYS,
        Level::Explored => &EXPLORED_WORKER_KEYS,
        Level::Device => &DEVICE_KEYS,
        Level::Scenario => &SCENARIO_KEYS,
        Level::NamedTask => &NAMED_TASK_KEYS,
        Level::NamedPhase => &NAMED_PHASE_KEYS,
        Level::Steal => &STEAL_KEYS,
        Level::Job => &JOB_KEYS,
        Level::Cost => &COST_KEYS,
        Level::Event => &EVENT_KEYS,
    }
}

/// The top level of the document that has tables of this level.
fn top_of(level: Level) -> Level {
    match level {
        Level::Bench | Level::Task | Level::Phase => Level::Bench,
        Level::Worker | Level::Explored | Level::Device => Level::Bench,
        _ => Level::Scenario,
    }
}

/// The sentence for a key that is unknown in a table of this level.
fn unknown_key_message<'a>(level: Level, name: &'a str) -> Message<'a> {
    let is_key_of = |level: Level| with_name(name, keys_of(level)).is_some();
    let (text, meant) = if level != top_of(level) && is_key_of(top_of(level)) {
        (ABOVE_TABLES, "")
    } else if level == Level::Bench && is_key_of(Level::Scenario) {
        (OF_SCENARIO, "")
    } else if level == Level::Scenario && is_key_of(Level::Bench) {
        (OF_BENCH, "")
    } else {
        // Without the key `seconds` a scenario is read as a bench.
        let seconds: &[Key] = if level == Level::Bench {
            &[SECONDS]
        } else {
            &[]
        };
        match meant_by(name, keys_of(level)).or(meant_by(name, seconds)) {
            Some(key) => (MEANT, key.name()),
            None => ("unknown key \"{}{}\"", ""),
        }
    };
    let (front, dots) = front_of(name);
    (text, [front, dots, Text(meant), NONE, NONE])
}

/// The sentence for an error at one place of a bench, whose text is this.
fn fault_message<'a>(wrong: Problem, text: &'a str) -> Message<'a> {
    plain(match wrong {
        Problem::Text(form) => return expected_form(form, text),
        Problem::NotToml => return message_of("not TOML: {}", Text(text), NONE),
        Problem::KeyTwice => {
            let (front, dots) = front_of(text);
            return message_of("not TOML: the key \"{}{}\" is there twice", front, dots);
        }
        Problem::Key(KeyFault::Unknown(level)) => return unknown_key_message(level, text),
        Problem::Key(KeyFault::Value(key)) => return expected_value(key),
        Problem::Key(KeyFault::Missing(key)) => {
            return message_of("the key \"{}\" is missing", name_of(key), NONE);
        }
        Problem::Key(KeyFault::NoneAbove(Some(number))) => {
            return message_of(BELOW, Number(number), NONE);
        }
        Problem::Key(KeyFault::NoneAbove(None)) => NONE_ABOVE,
        Problem::Key(KeyFault::Item(key)) if key.form().is_none() => "expected a table",
        Problem::Key(KeyFault::Item(_key)) => "expected a string",
        Problem::Key(KeyFault::Backward) => "\"from\" has to be below \"to\"",
        Problem::Key(KeyFault::OverlapsItself) => OVERLAPS_ITSELF,
        Problem::Key(KeyFault::Overlap) => "it overlaps an earlier row",
        Problem::Key(KeyFault::JobTwice) => "an earlier job has the same address",
        Problem::Key(KeyFault::LeastAboveMost) => "\"from\" may not be above \"to\"",
        Problem::Key(KeyFault::NoSeed) => NO_SEED,
        Problem::NoQuotes => "not TOML: five octal digits need quotes",
        Problem::TaskTwice => "an earlier task has the same at and bank",
        Problem::PhaseTwice => "an earlier phase has the same group and phase",
        Problem::TooManyAreas => "each of the six groups has a job that wants a VAC area",
    })
}

/// The name of a key.
fn name_of(key: Key) -> Field<'static> {
    Text(key.name())
}

/// The name of an item of a key's array.
fn item_of(key: Key) -> Field<'static> {
    Text(match key.form() {
        Some(TextForm::Word) => "word",
        Some(TextForm::Request | TextForm::Step) => "request",
        Some(TextForm::Action) => "action",
        _ => "item",
    })
}

/// Adds a table of a key's array, by its name or else its number.
fn put_table(out: &mut Buffer, key: Key, number: u64, name: Option<&str>) {
    out.text(key.name());
    out.text(" ");
    match name {
        None => out.add(Number(number)),
        Some(name) => out.add(front_of(name).0),
    }
}

/// Adds a place, with a colon unless it is the whole document. If it is in a table that has a name,
/// that is said in place of the table's number.
pub(crate) fn put_location(out: &mut Buffer, place: Location, name: Option<&str>) {
    match place {
        Location::Whole => {}
        Location::Value(key) => out.put("{}: ", &[name_of(key)]),
        Location::Item(key, k) => out.put("{}, {} {}: ", &[name_of(key), item_of(key), Number(k)]),
        Location::Table(key, k) => {
            put_table(out, key, k, name);
            out.text(": ");
        }
        Location::Field(key, k, of) => {
            put_table(out, key, k, name);
            out.put(", {}: ", &[name_of(of)]);
        }
        Location::FieldItem(key, k, of, n) => {
            put_table(out, key, k, name);
            out.put(", {} {}: ", &[item_of(of), Number(n)]);
        }
        Location::Subfield(key, k, of, at) => {
            put_table(out, key, k, name);
            out.put(", {}, {}: ", &[name_of(of), name_of(at)]);
        }
    }
}

/// The name of the table of a document in which a place is, if it has one.
pub(crate) fn name_at(document: &Table, place: Location) -> Option<&str> {
    let (key, number) = match place {
        Location::Whole | Location::Value(_) | Location::Item(..) => return None,
        Location::Table(key, k) | Location::Field(key, k, _) => (key, k),
        Location::FieldItem(key, k, ..) | Location::Subfield(key, k, ..) => (key, k),
    };
    let Value::Array(tables) = document.get(key.name())? else {
        return None;
    };
    match tables.get((number as usize).wrapping_sub(1))? {
        Value::Table(table) => match table.get("name")? {
            Value::String(name) if is_name(name.as_str()) => Some(name.as_str()),
            _ => None,
        },
        _ => None,
    }
}

/// Adds a line for each of the first twenty findings of a document, and one that counts the others.
///
/// # Errors
///
/// If memory runs out.
pub fn put_bench_messages(
    alloc: Global,
    out: &mut Buffer,
    document: NamedText<'_>,
    findings: &Findings,
) -> Result<(), AllocError> {
    let table = table_of(alloc, document.text)?.ok();
    for finding in findings.list.iter().take(MOST_TOLD) {
        let (wrong, text) = (finding.wrong, finding.text.as_str());
        let name = table
            .as_ref()
            .and_then(|table| name_at(table, finding.place));
        put_where(out, document.before_line, finding.line, "");
        put_location(out, finding.place, name);
        if let Problem::Text(_) | Problem::Key(KeyFault::NoneAbove(_)) = wrong {
            put_quoted(out, text);
        }
        put_message(
            out,
            match wrong {
                Problem::NotToml if is_like_script(document.text) => {
                    plain(if document.takes_script {
                        OF_SCRIPT
                    } else {
                        IN_SCRIPT
                    })
                }
                _ => fault_message(wrong, text),
            },
        );
        put_with_quotes(out, wrong, text);
        out.text("\n");
    }
    let left = findings.list.len().saturating_sub(MOST_TOLD);
    put_more(out, left.saturating_add(findings.more));
    Ok(())
}
