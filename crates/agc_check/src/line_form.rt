//! The kinds of lines, and the numbers in them.

use crate::names::HasName;
use agc_text::numbers::{address, delay, group, phase, place, priority, word};

/// The form of a word of a line, after the first.
#[derive(Clone, Copy)]
pub enum LineWord {
    Priority,
    Address,
    Word,
    Delay,
    Place,
    Group,
    Phase,
}

impl LineWord {
    /// The part for which a letter stands in the form of a line.
    pub(crate) fn of(letter: &str) -> Option<LineWord> {
        match letter {
            "P" => Some(LineWord::Priority),
            "A" => Some(LineWord::Address),
            "W" => Some(LineWord::Word),
            "D" => Some(LineWord::Delay),
            "K" => Some(LineWord::Place),
            "G" => Some(LineWord::Group),
            "N" => Some(LineWord::Phase),
            _ => None,
        }
    }

    /// Whether a text is such a number.
    pub(crate) fn is_spelled(self, text: &str) -> bool {
        match self {
            LineWord::Priority => priority(text).is_some(),
            LineWord::Address => address(text).is_some(),
            LineWord::Word => word(text).is_some(),
            LineWord::Delay => delay(text).is_some(),
            LineWord::Place => place(text).is_some(),
            LineWord::Group => group(text).is_some(),
            LineWord::Phase => phase(text).is_some(),
        }
    }

    /// The words for it in a sentence.
    pub(crate) fn spelling(self) -> &'static str {
        match self {
            LineWord::Priority => "a priority is octal, 01 to 37",
            LineWord::Address => "an address is five octal digits, 00001 to 37777",
            LineWord::Word => "a word is five octal digits, 00000 to 77777",
            LineWord::Delay => "a delay is decimal, 1 to 16250",
            LineWord::Place => "a work word's place is 1 to 6",
            LineWord::Group => "a group is 1 to 6",
            LineWord::Phase => "a phase is decimal, 0 to 127",
        }
    }
}

/// A kind of line, by its form: its first word, and a letter for each number that follows.
#[derive(Clone, Copy)]
pub struct LineForm(&'static str);

impl LineForm {
    /// The first word, and the letters, each after a space.
    pub(crate) fn form(self) -> &'static str {
        self.0
    }
}

impl HasName for LineForm {
    fn name(self) -> &'static str {
        match self.0.split_once(' ') {
            Some((word, _letters)) => word,
            None => self.0,
        }
    }
}

const NOVAC: LineForm = LineForm("novac P A W");

const FINDVAC: LineForm = LineForm("findvac P A W");

const END: LineForm = LineForm("end");

const SLEEP: LineForm = LineForm("sleep A");

const ROUSE: LineForm = LineForm("rouse A");

const PRIO: LineForm = LineForm("prio P");

const STORE: LineForm = LineForm("store K W");

const LIST: LineForm = LineForm("list D A W");

const PHASE: LineForm = LineForm("phase G N");

/// All requests.
pub(crate) const REQUESTS: [LineForm; 13] = [
    NOVAC,
    FINDVAC,
    END,
    SLEEP,
    ROUSE,
    PRIO,
    LineForm("change"),
    STORE,
    LIST,
    LineForm("tick"),
    PHASE,
    LineForm("restart"),
    LineForm("fresh"),
];

/// The sentence for a text whose first word is unknown.
pub(crate) const NO_REQUEST: &str = "its first word is unknown: a request begins with novac, \
     findvac, end, sleep, rouse, prio, change, store, list, tick, phase, restart or fresh";

/// The requests that an action can make.
pub(crate) const ACTIONS: [LineForm; 5] = [LineForm("nothing"), NOVAC, FINDVAC, ROUSE, LIST];

/// The requests that establish a job.
pub(crate) const JOBS: [LineForm; 2] = [NOVAC, FINDVAC];

/// The requests by which a job leaves.
pub(crate) const LEAVINGS: [LineForm; 2] = [END, SLEEP];

/// The requests that a job can make before it leaves.
pub(crate) const STEPS: [LineForm; 6] = [NOVAC, FINDVAC, PRIO, STORE, LIST, PHASE];

/// The request that lists a task.
pub(crate) const LISTINGS: [LineForm; 1] = [LIST];
