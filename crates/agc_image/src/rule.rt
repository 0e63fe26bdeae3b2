// The rules of words on which a step is asked.
ghost use Rattle.agc_image.specs.Rules.{IsNumberOf};

/// A rule that words keep between requests: lawful words the first nineteen.
#[derive(Clone, Copy, PartialEq, Eq)]
pub enum Rule {
    FifteenBits,
    JobNumber,
    JobNumberTwice,
    JobAddress,
    JobPriority,
    JobArea,
    JobAreaTwice,
    AwakeInFront,
    UseWord,
    NewjobNamesBest,
    Time3,
    TaskNear,
    TaskAddress,
    Gap,
    NoGapAfterLast,
    NoTaskAfterLast,
    PhaseRange,
    PhasePair,
    AlarmCodes,
    NoneDue,
    JobTidy,
    GapTidy,
}

impl Rule {
    /// Its number, 1 to 22.
    pub fn number(self) -> u32
        ensures { IsNumberOf result self }
    {
        match self {
            Rule::FifteenBits => 1,
            Rule::JobNumber => 2,
            Rule::JobNumberTwice => 3,
            Rule::JobAddress => 4,
            Rule::JobPriority => 5,
            Rule::JobArea => 6,
            Rule::JobAreaTwice => 7,
            Rule::AwakeInFront => 8,
            Rule::UseWord => 9,
            Rule::NewjobNamesBest => 10,
            Rule::Time3 => 11,
            Rule::TaskNear => 12,
            Rule::TaskAddress => 13,
            Rule::Gap => 14,
            Rule::NoGapAfterLast => 15,
            Rule::NoTaskAfterLast => 16,
            Rule::PhaseRange => 17,
            Rule::PhasePair => 18,
            Rule::AlarmCodes => 19,
            Rule::NoneDue => 20,
            Rule::JobTidy => 21,
            Rule::GapTidy => 22,
        }
    }

    /// The sentence of the rule of a number, without a full stop; None for a number that no rule
    /// has.
    pub fn sentence(number: u32) -> Option<&'static str> {
        SENTENCES.get((number as usize).checked_sub(1)?).copied()
    }
}

// In the order of the rules.
const SENTENCES: [&str; 22] = [
    "a word has at most fifteen bits",
    "a job's number is 1 to the number of core sets",
    "no two jobs have one number",
    "LOC of a job is an address, 1 to 037777",
    "PRIORITY of a job has a priority, 1 to 31",
    "PRIORITY of a job ends with a VAC area's address, or 0",
    "no two jobs own one VAC area",
    "where a job is awake, the job in core set 0 is",
    "a use word is 0 where a job owns the area, else its address",
    "NEWJOB names the best job's core set",
    "TIME3 isn't negative, and is 0 where no task waits",
    "no task is more than 16250 centiseconds away",
    "a task's address is 1 to 037777",
    "LST1 between two tasks is 1 or 0, or negative",
    "LST1 behind the last task is 057777",
    "LST2 behind the last task is 0",
    "a phase is at most 127",
    "-PHASE is the complement of PHASE",
    "FAILREG has codes of alarms: the first, the second and the latest",
    "between requests no task is due",
    "a step leaves 0 in MODE and PUSHLOC of a job",
    "a step leaves no 077777 in LST1",
];
