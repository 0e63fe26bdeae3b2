ghost use Rattle.std.specs.Prelude.{◌≡◌, ◌≤◌, ◌↔◌, IsSome, IfSome};

use std::marker::Model;

/// A job's priority, 1 to 31: the greater is the more urgent. Source: the listings' EXECUTIVE
/// section.
#[derive(Clone, Copy, PartialEq, Eq)]
pub struct Priority {
    value: u8,
}

impl Model for Priority {
    ghost use Rattle.std.specs.Prelude.{ℕ, ◌≤◌};

    ghost Value = { ℕ };

    ghost view = { λ n. n.value };

    ghost invariant = { λ n. (1 ≤ n.value) × (n.value ≤ 31) };

    ghost inverse = { λ n. record { value = n } };
}

impl Priority {
    /// A priority. None outside 1 to 31.
    pub fn new(value: u8) -> Option<Priority>
        ensures valid { IsSome result ↔ ((1 ≤ value) × (value ≤ 31)) }
        ensures value { IfSome result (λ n. n ≡ value) }
    {
        if (1..=31).contains(&value) {
            Some(Priority { value })
        } else {
            None
        }
    }

    /// The priority, 1 to 31.
    pub fn get(self) -> u8
        ensures value { result ≡ self }
        ensures range { (1 ≤ self) × (self ≤ 31) }
    {
        self.value
    }
}

/// An address, 1 to 16383: where a job or a task begins, or at which a sleeper is to be awakened.
/// Source: the listings' EXECUTIVE and WAITLIST sections.
#[derive(Clone, Copy, PartialEq, Eq, Debug)]
pub struct Address {
    value: u16,
}

impl Model for Address {
    ghost use Rattle.std.specs.Prelude.{ℕ, ◌≤◌};

    ghost Value = { ℕ };

    ghost view = { λ n. n.value };

    ghost invariant = { λ n. (1 ≤ n.value) × (n.value ≤ 16383) };

    ghost inverse = { λ n. record { value = n } };
}

impl Address {
    /// An address. None outside 1 to 16383.
    pub fn new(value: u16) -> Option<Address>
        ensures valid { IsSome result ↔ ((1 ≤ value) × (value ≤ 16383)) }
        ensures value { IfSome result (λ n. n ≡ value) }
    {
        if (1..=16383).contains(&value) {
            Some(Address { value })
        } else {
            None
        }
    }

    /// The address, 1 to 16383.
    pub fn get(self) -> u16
        ensures value { result ≡ self }
        ensures range { (1 ≤ self) × (self ≤ 16383) }
    {
        self.value
    }
}

/// A job's number, 1 to 8: a living job keeps it wherever its core set goes.
#[derive(Clone, Copy, PartialEq, Eq)]
pub struct JobNo {
    value: u8,
}

impl Model for JobNo {
    ghost use Rattle.std.specs.Prelude.{ℕ, ◌≤◌};

    ghost Value = { ℕ };

    ghost view = { λ n. n.value };

    ghost invariant = { λ n. (1 ≤ n.value) × (n.value ≤ 8) };

    ghost inverse = { λ n. record { value = n } };
}

impl JobNo {
    /// A job's number. None outside 1 to 8. In a computer with seven core sets no job gets number
    /// 8.
    pub fn new(value: u8) -> Option<JobNo>
        ensures valid { IsSome result ↔ ((1 ≤ value) × (value ≤ 8)) }
        ensures value { IfSome result (λ n. n ≡ value) }
    {
        if (1..=8).contains(&value) {
            Some(JobNo { value })
        } else {
            None
        }
    }

    /// The number, 1 to 8.
    pub fn get(self) -> u8
        ensures value { result ≡ self }
        ensures range { (1 ≤ self) × (self ≤ 8) }
    {
        self.value
    }
}

/// A delay of the Waitlist in centiseconds, 1 to 16250.
#[derive(Clone, Copy, PartialEq, Eq)]
pub struct Delay {
    value: u16,
}

impl Model for Delay {
    ghost use Rattle.std.specs.Prelude.{ℕ, ◌≤◌};

    ghost Value = { ℕ };

    ghost view = { λ n. n.value };

    ghost invariant = { λ n. (1 ≤ n.value) × (n.value ≤ 16250) };

    ghost inverse = { λ n. record { value = n } };
}

impl Delay {
    /// A delay in centiseconds. None outside 1 to 16250.
    pub fn new(value: u16) -> Option<Delay>
        ensures valid { IsSome result ↔ ((1 ≤ value) × (value ≤ 16250)) }
        ensures value { IfSome result (λ n. n ≡ value) }
    {
        if (1..=16250).contains(&value) {
            Some(Delay { value })
        } else {
            None
        }
    }

    /// The delay in centiseconds, 1 to 16250.
    pub fn get(self) -> u16
        ensures value { result ≡ self }
        ensures range { (1 ≤ self) × (self ≤ 16250) }
    {
        self.value
    }
}

/// A restart group, 1 to 6. Source: the listings' PHASE TABLE MAINTENANCE section.
#[derive(Clone, Copy, PartialEq, Eq)]
pub struct Group {
    number: u8,
}

impl Model for Group {
    ghost use Rattle.std.specs.Prelude.{ℕ, ◌≤◌};

    ghost Value = { ℕ };

    ghost view = { λ n. n.number };

    ghost invariant = { λ n. (1 ≤ n.number) × (n.number ≤ 6) };

    ghost inverse = { λ n. record { number = n } };
}

impl Group {
    /// A restart group. None outside 1 to 6.
    pub fn new(number: u8) -> Option<Group>
        ensures valid { IsSome result ↔ ((1 ≤ number) × (number ≤ 6)) }
        ensures value { IfSome result (λ n. n ≡ number) }
    {
        if (1..=6).contains(&number) {
            Some(Group { number })
        } else {
            None
        }
    }

    /// The group, 1 to 6.
    pub fn get(self) -> u8
        ensures value { result ≡ self }
        ensures range { (1 ≤ self) × (self ≤ 6) }
    {
        self.number
    }
}

/// The phase of a restart group, 0 to 127; 0 is inactive.
#[derive(Clone, Copy, PartialEq, Eq)]
pub struct Phase {
    value: u8,
}

impl Model for Phase {
    ghost use Rattle.std.specs.Prelude.{ℕ, ◌≤◌};

    ghost Value = { ℕ };

    ghost view = { λ n. n.value };

    ghost invariant = { λ n. n.value ≤ 127 };

    ghost inverse = { λ n. record { value = n } };
}

impl Phase {
    /// A phase. None above 127.
    pub fn new(value: u8) -> Option<Phase>
        ensures valid { IsSome result ↔ (value ≤ 127) }
        ensures value { IfSome result (λ n. n ≡ value) }
    {
        if value <= 127 {
            Some(Phase { value })
        } else {
            None
        }
    }

    /// The phase, 0 to 127.
    pub fn get(self) -> u8
        ensures value { result ≡ self }
        ensures range { self ≤ 127 }
    {
        self.value
    }
}

/// The place of a job's work word, 1 to 6: MPAC+1 to MPAC+6.
#[derive(Clone, Copy, PartialEq, Eq)]
pub struct Place {
    offset: u8,
}

impl Model for Place {
    ghost use Rattle.std.specs.Prelude.{ℕ, ◌≤◌};

    ghost Value = { ℕ };

    ghost view = { λ n. n.offset };

    ghost invariant = { λ n. (1 ≤ n.offset) × (n.offset ≤ 6) };

    ghost inverse = { λ n. record { offset = n } };
}

impl Place {
    /// The place of a work word. None outside 1 to 6.
    pub fn new(offset: u8) -> Option<Place>
        ensures valid { IsSome result ↔ ((1 ≤ offset) × (offset ≤ 6)) }
        ensures value { IfSome result (λ n. n ≡ offset) }
    {
        if (1..=6).contains(&offset) {
            Some(Place { offset })
        } else {
            None
        }
    }

    /// The place, 1 to 6.
    pub fn get(self) -> u8
        ensures value { result ≡ self }
        ensures range { (1 ≤ self) × (self ≤ 6) }
    {
        self.offset
    }
}

/// How many requests a log may hold, 1 to 1,000,000.
#[derive(Clone, Copy, PartialEq, Eq)]
pub struct Limit {
    value: u32,
}

impl Model for Limit {
    ghost use Rattle.std.specs.Prelude.{ℕ, ◌≤◌};

    ghost Value = { ℕ };

    ghost view = { λ n. n.value };

    ghost invariant = { λ n. (1 ≤ n.value) × (n.value ≤ 1000000) };

    ghost inverse = { λ n. record { value = n } };
}

impl Limit {
    /// A limit. None outside 1 to 1,000,000.
    pub fn new(value: u32) -> Option<Limit>
        ensures valid { IsSome result ↔ ((1 ≤ value) × (value ≤ 1000000)) }
        ensures value { IfSome result (λ n. n ≡ value) }
    {
        if (1..=1000000).contains(&value) {
            Some(Limit { value })
        } else {
            None
        }
    }

    /// The limit, 1 to 1,000,000.
    pub fn get(self) -> u32
        ensures value { result ≡ self }
        ensures range { (1 ≤ self) × (self ≤ 1000000) }
    {
        self.value
    }
}
