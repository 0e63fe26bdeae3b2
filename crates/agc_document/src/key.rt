//! The keys of a document: their names, and the kinds of their values.
ghost use Rattle.std.specs.Prelude.{◌≡◌};
ghost use Rattle.agc_document.specs.Rows.{name_text, name_of, kind_of, bounds_of};

use crate::values::{is_name, is_step, job_of, leaving_of, parse_kind, timed_of};
use agc_text::{parse_action, parse_address, parse_line, parse_word};

/// The name of a key that only scenarios have.
#[derive(Clone, Copy)]
pub enum TimeName {
    After,
    Cost,
    Deadline,
    Do,
    Event,
    Every,
    From,
    Name,
    Percent,
    Seconds,
    Seed,
    Steal,
    Then,
    Title,
    To,
    Until,
}

/// The name of a key.
#[derive(Clone, Copy)]
pub enum KeyName {
    Action,
    Allowance,
    At,
    Attends,
    Bank,
    Device,
    Group,
    Job,
    Key,
    Limit,
    Line,
    Phase,
    Power,
    Pulses,
    Radar,
    Repeat,
    Script,
    Sets,
    Task,
    Worker,
    /// The name of a key that only scenarios have.
    Time(TimeName),
}

/// The form that a text must have.
#[derive(Clone, Copy)]
pub enum TextForm {
    Request,
    Action,
    /// A request that establishes a job.
    Job,
    /// A request that lists a task.
    Listing,
    Address,
    Word,
    /// The line of a device.
    Device,
    /// A request by which a job leaves: it ends, or falls asleep.
    Leaving,
    /// A request that a job may make before it leaves.
    Step,
    /// One line that can be shown: without control characters.
    Name,
}

/// The kind of a key's value, and its range.
#[derive(Clone, Copy)]
pub enum Kind {
    /// An integer between two bounds. A key that takes other values, too, has a reader that knows
    /// them.
    Integer(u64, u64),
    /// True or false.
    Flag,
    Text(TextForm),
    /// One text, or an array of texts, as many as two bounds say.
    OneOrMore(TextForm, u64, u64),
    /// An array of texts, as many as two bounds say.
    Texts(TextForm, u64, u64),
    /// An array of tables, as many as two bounds say.
    Tables(u64, u64),
    /// An array of tables that have other keys than in a bench, as many as two bounds say.
    OtherTables(u64, u64),
}

/// A key of a table: its name, the kind of its value, and whether the table must have it.
#[derive(Clone, Copy)]
pub enum Key {
    Required(KeyName, Kind),
    Optional(KeyName, Kind),
}

/// No upper bound on the number of items.
pub const ANY: u64 = u64::MAX;

impl TimeName {
    /// The name itself.
    fn own_text(self) -> &'static str
        ensures { result.now ≡ name_text (KeyName.Time self) }
    {
        match self {
            TimeName::After => "after",
            TimeName::Cost => "cost",
            TimeName::Deadline => "deadline",
            TimeName::Do => "do",
            TimeName::Event => "event",
            TimeName::Every => "every",
            TimeName::From => "from",
            TimeName::Name => "name",
            TimeName::Percent => "percent",
            TimeName::Seconds => "seconds",
            TimeName::Seed => "seed",
            TimeName::Steal => "steal",
            TimeName::Then => "then",
            TimeName::Title => "title",
            TimeName::To => "to",
            TimeName::Until => "until",
        }
    }
}

impl KeyName {
    /// The name itself.
    pub fn text(self) -> &'static str
        ensures { result.now ≡ name_text self }
    {
        match self {
            KeyName::Action => "action",
            KeyName::Allowance => "allowance",
            KeyName::At => "at",
            KeyName::Attends => "attends",
            KeyName::Bank => "bank",
            KeyName::Device => "device",
            KeyName::Group => "group",
            KeyName::Job => "job",
            KeyName::Key => "key",
            KeyName::Limit => "limit",
            KeyName::Line => "line",
            KeyName::Phase => "phase",
            KeyName::Power => "power",
            KeyName::Pulses => "pulses",
            KeyName::Radar => "radar",
            KeyName::Repeat => "repeat",
            KeyName::Script => "script",
            KeyName::Sets => "sets",
            KeyName::Task => "task",
            KeyName::Worker => "worker",
            KeyName::Time(name) => name.own_text(),
        }
    }
}

impl Key {
    /// The name as it is spelled in a document.
    pub fn name(self) -> &'static str
        ensures { result.now ≡ name_of self }
    {
        match self {
            Key::Required(name, _kind) => name.text(),
            Key::Optional(name, _kind) => name.text(),
        }
    }

    /// The kind of its value.
    pub fn kind(self) -> Kind
        ensures { result ≡ kind_of self }
    {
        match self {
            Key::Required(_name, kind) => kind,
            Key::Optional(_name, kind) => kind,
        }
    }

    /// The least and the most for its integer, or for the number of items of its array.
    pub fn bounds(self) -> (u64, u64)
        ensures { result ≡ bounds_of (kind_of self) }
    {
        match self.kind() {
            Kind::Integer(low, high) => (low, high),
            Kind::Flag | Kind::Text(_) => (0, ANY),
            Kind::OneOrMore(_form, low, high) => (low, high),
            Kind::Texts(_form, low, high) => (low, high),
            Kind::Tables(low, high) => (low, high),
            Kind::OtherTables(low, high) => (low, high),
        }
    }

    /// The form of its text, or of each text of its array. None if its value has no texts.
    pub fn form(self) -> Option<TextForm> {
        match self.kind() {
            Kind::Text(form) => Some(form),
            Kind::OneOrMore(form, _low, _high) | Kind::Texts(form, _low, _high) => Some(form),
            _ => None,
        }
    }
}

impl TextForm {
    /// Whether a text is of this form.
    pub(crate) fn is_spelled_by(self, text: &str) -> bool {
        let request = || parse_line(text);
        match self {
            TextForm::Request => request().is_some(),
            TextForm::Action => parse_action(text).is_some(),
            TextForm::Job => request().is_some_and(|it| job_of(&it).is_some()),
            TextForm::Listing => request().is_some_and(|it| timed_of(&it).is_some()),
            TextForm::Address => parse_address(text).is_some(),
            TextForm::Word => parse_word(text).is_some(),
            TextForm::Device => parse_kind(text).is_some(),
            TextForm::Leaving => request().is_some_and(|it| leaving_of(&it).is_some()),
            TextForm::Step => request().is_some_and(|it| is_step(&it)),
            TextForm::Name => is_name(text),
        }
    }
}
