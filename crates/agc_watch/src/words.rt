//! Reading the words of the command line.
use crate::commands::{error_of, whole_command};
use crate::page::PageView;
use crate::progress::WorkUnit;
use crate::stops::Stop;
use agc_explore::{CallerRules, ExploreOptions, TickBounds};
use agc_plan::Alarm;
use agc_table::TableForm;
use agc_trace::{TraceFormat, TraceOptions};
use clap::ArgMatches;
use clap::error::ErrorKind;
use std::alloc::Global;

/// The most states of a search, unless the words name another number.
const STATES: u64 = 2_000_000;

/// The least columns that a line can be kept to.
pub(crate) const LEAST_WIDTH: usize = 80;

/// The values to try of the number that a key names.
#[derive(Clone, Copy)]
pub(crate) struct Values<'a> {
    pub key: &'a str,
    pub from: u64,
    pub to: u64,
    pub step: u64,
}

/// A sweep: the values of a number, and those of a second one, if there is one; whether it looks
/// for the smallest that raises an alarm; and the form of its table.
#[derive(Clone, Copy)]
pub(crate) struct SweepOptions<'a> {
    pub first: Values<'a>,
    pub second: Option<Values<'a>>,
    pub finds: bool,
    pub form: TableForm,
}

/// A command, with its options.
#[derive(Clone, Copy)]
pub(crate) enum Subcommand<'a> {
    Trace(TraceOptions),
    /// The page of a document opens in this view, and is made of the workbench that is named, if
    /// one is.
    Page(PageView, Option<&'a str>),
    Check,
    Explore(ExploreOptions),
    Play,
    Bench,
    Peaks(TableForm),
    /// The statistics of its jobs, or only how the time of each era was used.
    Jobs(TableForm, bool),
    Sweep(SweepOptions<'a>),
    /// The differences from the document of this name.
    Compare(&'a str, TableForm),
}

impl Subcommand<'_> {
    /// The things that are counted in it.
    pub(crate) fn work_unit(&self) -> WorkUnit {
        match self {
            Subcommand::Sweep(_asked) => WorkUnit::Runs,
            Subcommand::Explore(_options) => WorkUnit::States,
            _ => WorkUnit::Requests,
        }
    }
}

/// Where the input is.
#[derive(Clone, Copy)]
pub(crate) enum Input<'a> {
    Standard,
    /// A file of this name.
    File(&'a str),
    /// No file: the bench without requests.
    Empty,
}

impl<'a> Input<'a> {
    /// The name of its file, or `-`.
    pub(crate) fn name(self) -> &'a str {
        match self {
            Input::File(name) => name,
            Input::Standard | Input::Empty => "-",
        }
    }
}

/// A command line, as it was read.
#[derive(Clone, Copy)]
pub(crate) struct Invocation<'a> {
    pub subcommand: Subcommand<'a>,
    pub input: Input<'a>,
    /// Whether the command has the option `--script`.
    pub takes_script: bool,
    /// Whether the input is a script.
    pub is_script: bool,
    /// Whether progress is reported on standard error.
    pub has_progress: bool,
}

/// The number that a text is, or the greatest, if it is greater than that; None if it isn't all
/// digits.
fn number_of(digits: &str) -> Option<u64> {
    let is_decimal = digits.as_bytes().iter().all(u8::is_ascii_digit);
    let number = digits.parse::<u64>().unwrap_or(u64::MAX);
    (is_decimal && !digits.is_empty()).then_some(number)
}

/// A number of columns.
fn width_of(digits: &str) -> Option<usize> {
    let width = usize::try_from(number_of(digits)?).ok();
    width.filter(|width| *width >= LEAST_WIDTH)
}

/// The alarm of this code.
fn alarm_of(code: &str) -> Option<Alarm> {
    match code {
        "1201" => Some(Alarm::A1201),
        "1202" => Some(Alarm::A1202),
        "1203" => Some(Alarm::A1203),
        _ => None,
    }
}

/// The hundredths of a number with at most two decimals.
fn hundredths_of(text: &str) -> Option<u64> {
    let (whole, decimals) = text.split_once('.').unwrap_or((text, "00"));
    let tens = match decimals.len() {
        1 => 10,
        2 => 1,
        _ => return None,
    };
    let rest = number_of(decimals)?.saturating_mul(tens);
    let whole = number_of(whole)?.saturating_mul(100);
    Some(whole.saturating_add(rest))
}

/// The values of a text, such as `KEY:FROM:TO` or `KEY:FROM:TO:STEP`.
fn values_of(text: &str) -> Option<Values<'_>> {
    let (front, last) = text.rsplit_once(':')?;
    let (key, before) = front.rsplit_once(':')?;
    let (last, before) = (number_of(last)?, number_of(before)?);
    let (name, first) = key.rsplit_once(':').unwrap_or((key, ""));
    let (key, from, to, step) = match number_of(first) {
        None => (key, before, last, 1),
        Some(first) => (name, first, before, last),
    };
    Some(Values {
        key,
        from,
        to,
        step,
    })
}

/// The file that a word names.
fn file_of(word: Option<&str>) -> Option<&str> {
    match word {
        Some("-") => None,
        named => named,
    }
}

/// A reason why the words are wrong, and the word that is, if it is one.
#[derive(Clone, Copy)]
struct WordFault<'a> {
    reason: &'static str,
    word: Option<&'a str>,
}

/// The words after a command, the form of texts unless a width is named, the file that is named,
/// and the first fault of the words, if there is one.
#[derive(Drop)]
struct Words<'a, 'b> {
    given: &'b ArgMatches<'a>,
    form: TableForm,
    file: Option<&'a str>,
    fault: Option<WordFault<'a>>,
}

impl<'a, 'b> Words<'a, 'b> {
    /// Notes a reason, and the word that is wrong, if one is, unless the check succeeds, or there
    /// was a fault before.
    fn check(&mut self, is_right: bool, reason: &'static str, word: Option<&'a str>) {
        if !is_right && self.fault.is_none() {
            self.fault = Some(WordFault { reason, word });
        }
    }

    /// The value of a word that is given, as this reads it. One that it can't read is noted.
    fn value<T, Read: Fn(&str) -> Option<T>>(
        &mut self,
        name: &str,
        reason: &'static str,
        read: Read,
    ) -> Option<T>
        requires { Read.IsAlwaysCallable read }
    {
        let word = self.given.get_str(name)?;
        let value = read(word);
        self.check(value.is_some(), reason, Some(word));
        value
    }

    /// The form of a table.
    fn form(&mut self) -> TableForm {
        let reason = "--width wants a whole number from 80 on";
        let width = self.value("width", reason, width_of);
        if self.given.get_flag("csv") {
            TableForm::Csv
        } else if self.given.get_flag("jsonl") {
            TableForm::JsonLines
        } else {
            width.map_or(self.form, TableForm::Within)
        }
    }

    /// Reads the words after `trace`.
    fn trace(&mut self) -> TraceOptions {
        let reason = "--from wants a number with at most two decimals";
        let from = self.value("from", reason, hundredths_of);
        let reason = "--to wants a number with at most two decimals";
        let to = self.value("to", reason, hundredths_of);
        let is_right = from.unwrap_or(0) <= to.unwrap_or(u64::MAX);
        self.check(is_right, "--from is beyond --to", None);
        let form = TraceFormat::Rows(self.form());
        let is_chart = self.given.get_flag("perfetto");
        TraceOptions {
            form: if is_chart { TraceFormat::Chart } else { form },
            alarms: self.given.get_flag("alarms"),
            from,
            to,
            brief: self.given.get_flag("brief"),
        }
    }

    /// The view in which a page opens.
    fn view(&mut self) -> PageView {
        let view = self.given.get_str("view");
        self.check(
            matches!(view, None | Some("chart")),
            "--view wants chart",
            view,
        );
        if view.is_some() {
            PageView::Chart
        } else {
            PageView::Whole
        }
    }

    /// The number of requests between two ticks.
    fn ticks(&mut self) -> TickBounds {
        let requests = |word: &str| u16::try_from(number_of(word)?).ok();
        let reason = "--least wants a whole number from 0 to 65535";
        let least = self.value("least", reason, requests).unwrap_or(0);
        let reason = "--most wants a whole number from 0 to 65535";
        let most = self.value("most", reason, requests);
        let is_right = least <= most.unwrap_or(u16::MAX);
        self.check(is_right, "--least is beyond --most", None);
        TickBounds { least, most }
    }

    /// Reads the words after `explore`.
    fn explore(&mut self) -> ExploreOptions {
        let some = |word: &str| number_of(word).filter(|states| *states > 0);
        let reason = "--states wants a whole number from 1 on";
        let states = self.value("states", reason, some).unwrap_or(STATES);
        let bench = self.value("bench", "--bench wants 1201, 1202 or 1203", alarm_of);
        let alarm = self.value("alarm", "--alarm wants 1201, 1202 or 1203", alarm_of);
        let is_one = bench.is_none() || alarm.is_none() || alarm == bench;
        self.check(is_one, "--alarm and --bench name two alarms", None);
        let (through, repeats) = (
            self.given.get_flag("through"),
            self.given.get_flag("repeat"),
        );
        ExploreOptions {
            states,
            alarm,
            rules: CallerRules::new(through, repeats, self.ticks()),
            peaks: self.given.get_flag("peaks"),
            bench,
            form: self.form(),
        }
    }

    /// The step of a sweep. The word after its values is the file, if it is no number.
    fn step(&mut self) -> u64 {
        let word = self.given.get_str("step");
        match word.and_then(number_of) {
            Some(step) => step,
            None if word.is_none() => 1,
            None => {
                let is_number = word.is_some_and(|word| word.starts_with('-') && word != "-");
                let is_file = self.given.get_str("file").is_none() && !is_number;
                self.check(is_file, "STEP wants a whole number (FILE comes last)", word);
                self.file = file_of(word);
                1
            }
        }
    }

    /// The values of the first number of a sweep.
    fn first_values(&mut self) -> Values<'a> {
        let from = self.value("from", "FROM wants a whole number", number_of);
        let to = self.value("to", "TO wants a whole number", number_of);
        Values {
            key: self.given.get_str("key").unwrap_or(""),
            from: from.unwrap_or(0),
            to: to.unwrap_or(u64::MAX),
            step: self.step(),
        }
    }

    /// The values of the second number of a sweep, if it is given.
    fn second_values(&mut self, key: &str) -> Option<Values<'a>> {
        let text = self.given.get_str("and")?;
        let values = values_of(text);
        let reason = "--and wants KEY:FROM:TO or KEY:FROM:TO:STEP, such as steal:0:20:5";
        self.check(values.is_some(), reason, Some(text));
        let is_other = values.is_none_or(|values| values.key != key);
        self.check(is_other, "--and wants another key", Some(text));
        values
    }

    /// Reads the words after `sweep`.
    fn sweep(&mut self) -> SweepOptions<'a> {
        let first = self.first_values();
        let second = self.second_values(first.key);
        for values in [first, second.unwrap_or(first)] {
            self.check(values.step > 0, "STEP is 0", None);
            self.check(values.from <= values.to, "FROM is beyond TO", None);
        }
        SweepOptions {
            first,
            second,
            finds: self.given.get_flag("find"),
            form: self.form(),
        }
    }

    /// The second document of `compare`; only one of the two may be standard input.
    fn after(&mut self) -> &'a str {
        let after = self.given.get_str("after").unwrap_or("-");
        let is_named = self.file.is_some() || after != "-";
        let reason = "BEFORE and AFTER can't both be standard input";
        self.check(is_named, reason, None);
        after
    }

    /// Reads the words after the name of a command.
    fn subcommand(&mut self, command: &str) -> Subcommand<'a> {
        match command {
            "trace" => Subcommand::Trace(self.trace()),
            "page" => Subcommand::Page(self.view(), self.given.get_str("workbench")),
            "check" => Subcommand::Check,
            "explore" => Subcommand::Explore(self.explore()),
            "bench" => Subcommand::Bench,
            "peaks" => Subcommand::Peaks(self.form()),
            "jobs" => Subcommand::Jobs(self.form(), self.given.get_flag("eras")),
            "sweep" => Subcommand::Sweep(self.sweep()),
            "compare" => Subcommand::Compare(self.after(), self.form()),
            _ => Subcommand::Play,
        }
    }
}

/// Reads a command line that `clap` takes.
fn parse_matches<'a>(
    alloc: Global,
    matches: &ArgMatches<'a>,
    form: TableForm,
) -> Result<Invocation<'a>, Stop> {
    let Some((command, given)) = matches.subcommand() else {
        return Err(refused_words(alloc, "", "a command is missing"));
    };
    let mut words = Words {
        given,
        form,
        file: file_of(given.get_str("file")),
        fault: None,
    };
    let subcommand = words.subcommand(command);
    let input = match (words.file, subcommand) {
        (Some(name), _) => Input::File(name),
        (None, Subcommand::Play) => Input::Empty,
        (None, _) => Input::Standard,
    };
    match words.fault {
        Some(fault) => Err(refused_word(alloc, command, fault)),
        None => Ok(Invocation {
            subcommand,
            input,
            takes_script: given.contains_id("script"),
            is_script: given.get_flag("script"),
            has_progress: given.get_flag("progress"),
        }),
    }
}

/// Words after this command that have this fault.
fn refused_word(alloc: Global, command: &str, fault: WordFault<'_>) -> Stop {
    match fault.word {
        None => refused_words(alloc, command, fault.reason),
        Some(word) => match format!(in alloc; "{}, not '{word}'", fault.reason) {
            Ok(reason) => refused_words(alloc, command, reason.as_str()),
            Err(error) => Stop::from(error),
        },
    }
}

/// Words after this command that are wrong for a reason that `clap` doesn't know.
pub(crate) fn refused_words(alloc: Global, command: &str, reason: &str) -> Stop {
    match error_of(alloc, command, reason) {
        Ok(error) => Stop::Words(error),
        Err(error) => Stop::from(error),
    }
}

/// Reads the words of a command line, where texts have this form unless the words name another. The
/// first is the program's own name.
///
/// # Errors
///
/// `Words` for those that ask for a text, the help or the version, and for wrong ones; and that
/// there is no memory.
pub(crate) fn parse_words<'a>(
    alloc: Global,
    words: &'a [String],
    form: TableForm,
) -> Result<Invocation<'a>, Stop> {
    let mut program = whole_command(alloc)?;
    match program.try_get_matches_from_mut(words) {
        Ok(matches) => parse_matches(alloc, &matches, form),
        Err(error) if error.kind() == ErrorKind::OutOfMemory => Err(Stop::NoMemory),
        Err(error) => Err(Stop::Words(error)),
    }
}
