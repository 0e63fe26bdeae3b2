//! The table of keys of a scenario: each with the kind of its value, and whether it is required.
use agc_clock::LAST_TIME;
use agc_document::rows::{ALLOWANCE, AT, KEY, LIMIT, NAME, POWER, RADAR, SETS};
use agc_document::{ANY, Key, KeyName, Kind, TextForm, TimeName};

pub const SECONDS: Key = Key::Required(KeyName::Time(TimeName::Seconds), Kind::Integer(1, 86_400));

pub const TITLE: Key = Key::Optional(KeyName::Time(TimeName::Title), Kind::Text(TextForm::Name));

pub const SEED: Key = Key::Optional(
    KeyName::Time(TimeName::Seed),
    Kind::Integer(1, 2_147_483_646),
);

pub const STEAL: Key = Key::Optional(KeyName::Time(TimeName::Steal), Kind::Integer(0, 100));

pub const NAMED_TASKS: Key = Key::Optional(KeyName::Task, Kind::OtherTables(0, ANY));

pub const NAMED_PHASES: Key = Key::Optional(KeyName::Phase, Kind::OtherTables(0, ANY));

pub const JOBS: Key = Key::Optional(KeyName::Job, Kind::Tables(0, 100));

pub const EVENTS: Key = Key::Optional(KeyName::Time(TimeName::Event), Kind::Tables(0, 1000));

/// The keys of a scenario itself.
pub const SCENARIO_KEYS: [Key; 14] = [
    SECONDS,
    TITLE,
    SEED,
    SETS,
    LIMIT,
    ALLOWANCE,
    KEY,
    RADAR,
    POWER,
    STEAL,
    NAMED_TASKS,
    NAMED_PHASES,
    JOBS,
    EVENTS,
];

/// A centisecond of a day.
const TIME: Kind = Kind::Integer(0, LAST_TIME as u64);

/// A number of centiseconds, at least one.
const LONG: Kind = Kind::Integer(1, LAST_TIME as u64);

pub const FROM: Key = Key::Required(KeyName::Time(TimeName::From), TIME);

pub const TO: Key = Key::Required(KeyName::Time(TimeName::To), TIME);

pub const PERCENT: Key = Key::Required(KeyName::Time(TimeName::Percent), Kind::Integer(0, 100));

pub const EVERY: Key = Key::Optional(KeyName::Time(TimeName::Every), LONG);

pub const UNTIL: Key = Key::Optional(KeyName::Time(TimeName::Until), TIME);

/// The keys of a row of stolen time.
pub const STEAL_KEYS: [Key; 5] = [FROM, TO, PERCENT, EVERY, UNTIL];

pub const COST: Key = Key::Required(KeyName::Time(TimeName::Cost), Kind::Integer(1, 1_000_000));

pub const LEAST: Key = Key::Required(KeyName::Time(TimeName::From), Kind::Integer(1, 1_000_000));

pub const MOST: Key = Key::Required(KeyName::Time(TimeName::To), Kind::Integer(1, 1_000_000));

/// The keys of a cost that is drawn.
pub const COST_KEYS: [Key; 2] = [LEAST, MOST];

pub const DEADLINE: Key = Key::Optional(KeyName::Time(TimeName::Deadline), LONG);

pub const THEN: Key = Key::Optional(
    KeyName::Time(TimeName::Then),
    Kind::OneOrMore(TextForm::Request, 1, 8),
);

/// The key `then` as its last request must be: one by which the job leaves.
pub const LAST: Key = Key::Optional(KeyName::Time(TimeName::Then), Kind::Text(TextForm::Leaving));

/// The key `then` as all requests before the last must be.
pub const BEFORE: Key = Key::Optional(KeyName::Time(TimeName::Then), Kind::Text(TextForm::Step));

/// The keys of a job.
pub const JOB_KEYS: [Key; 5] = [AT, COST, DEADLINE, THEN, NAME];

pub const MOMENT: Key = Key::Required(KeyName::At, TIME);

pub const AFTER: Key = Key::Optional(KeyName::Time(TimeName::After), Kind::Text(TextForm::Name));

pub const DO: Key = Key::Required(
    KeyName::Time(TimeName::Do),
    Kind::OneOrMore(TextForm::Request, 1, 16),
);

/// The keys of an event.
pub const EVENT_KEYS: [Key; 6] = [MOMENT, AFTER, DO, EVERY, UNTIL, NAME];
