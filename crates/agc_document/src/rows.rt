//! The table of keys of a bench: each with the kind of its value, and whether it is required.
use crate::key::{ANY, Key, KeyName, Kind, TextForm, TimeName};

pub const SETS: Key = Key::Optional(KeyName::Sets, Kind::Integer(7, 8));

pub const LIMIT: Key = Key::Optional(KeyName::Limit, Kind::Integer(1, 1_000_000));

pub const ALLOWANCE: Key = Key::Optional(KeyName::Allowance, Kind::Integer(0, 9223372036854775807));

pub const ATTENDS: Key = Key::Optional(KeyName::Attends, Kind::Integer(0, 1000));

pub const KEY: Key = Key::Optional(KeyName::Key, Kind::OneOrMore(TextForm::Action, 1, 4));

pub const RADAR: Key = Key::Optional(KeyName::Radar, Kind::OneOrMore(TextForm::Action, 1, 4));

pub const POWER: Key = Key::Optional(KeyName::Power, Kind::Texts(TextForm::Word, 12, 12));

pub const SCRIPT: Key = Key::Optional(KeyName::Script, Kind::Texts(TextForm::Request, 0, ANY));

pub const TASKS: Key = Key::Optional(KeyName::Task, Kind::Tables(0, ANY));

pub const PHASES: Key = Key::Optional(KeyName::Phase, Kind::Tables(0, ANY));

pub const WORKERS: Key = Key::Optional(KeyName::Worker, Kind::Tables(0, 32));

pub const DEVICES: Key = Key::Optional(KeyName::Device, Kind::Tables(0, 32));

/// The workers of a bench that is explored.
pub const EXPLORED: Key = Key::Optional(KeyName::Worker, Kind::OtherTables(0, 32));

/// The devices of a bench that is explored.
pub const EXPLORED_DEVICES: Key = Key::Optional(KeyName::Device, Kind::OtherTables(0, 32));

/// The keys of a bench itself.
pub const BENCH_KEYS: [Key; 12] = [
    SETS, LIMIT, ALLOWANCE, ATTENDS, KEY, RADAR, POWER, SCRIPT, TASKS, PHASES, WORKERS, DEVICES,
];

pub const AT: Key = Key::Required(KeyName::At, Kind::Text(TextForm::Address));

pub const BANK: Key = Key::Required(KeyName::Bank, Kind::Text(TextForm::Word));

pub const ACTION: Key = Key::Required(KeyName::Action, Kind::OneOrMore(TextForm::Action, 1, 4));

/// The keys of a task's row.
pub const TASK_KEYS: [Key; 3] = [AT, BANK, ACTION];

/// The name that a table has in a scenario.
pub const NAME: Key = Key::Optional(KeyName::Time(TimeName::Name), Kind::Text(TextForm::Name));

/// The keys of a task's row in a scenario.
pub const NAMED_TASK_KEYS: [Key; 4] = [AT, BANK, ACTION, NAME];

pub const GROUP: Key = Key::Required(KeyName::Group, Kind::Integer(1, 6));

pub const PHASE: Key = Key::Required(KeyName::Phase, Kind::Integer(1, 127));

pub const JOB: Key = Key::Optional(KeyName::Job, Kind::Text(TextForm::Job));

pub const LISTING: Key = Key::Optional(KeyName::Task, Kind::Text(TextForm::Listing));

/// The keys of a phase entry.
pub const PHASE_KEYS: [Key; 4] = [GROUP, PHASE, JOB, LISTING];

/// The keys of a phase entry in a scenario.
pub const NAMED_PHASE_KEYS: [Key; 5] = [GROUP, PHASE, JOB, LISTING, NAME];

pub const REQUESTS: Key = Key::Required(KeyName::Script, Kind::Texts(TextForm::Request, 0, ANY));

/// The keys of a worker.
pub const WORKER_KEYS: [Key; 1] = [REQUESTS];

pub const REPEAT: Key = Key::Optional(KeyName::Repeat, Kind::Flag);

/// The keys of a worker of a bench that is explored.
pub const EXPLORED_WORKER_KEYS: [Key; 2] = [REQUESTS, REPEAT];

pub const LINE: Key = Key::Required(KeyName::Line, Kind::Text(TextForm::Device));

pub const PULSES: Key = Key::Required(KeyName::Pulses, Kind::Integer(0, 1_000_000));

/// The keys of a device.
pub const DEVICE_KEYS: [Key; 2] = [LINE, PULSES];
