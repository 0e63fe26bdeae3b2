// When the first alarm of each code came.
ghost use Rattle.std.specs.Prelude.{◌≡◌};
ghost use Rattle.agc_clock.specs.Alarms.{came, first_came, first_or, none_came};

use agc_plan::Alarm;

/// When the first alarm of each code came, in centiseconds since the start; None where none came.
#[derive(Clone, Copy)]
pub struct Alarms {
    pub a1201: Option<u32>,
    pub a1202: Option<u32>,
    pub a1203: Option<u32>,
}

/// When the first came, if one came at this time.
fn first_or(first: Option<u32>, time: u32) -> Option<u32>
    ensures { result ≡ first_or first time }
{
    match first {
        None => Some(time),
        Some(first) => Some(first),
    }
}

impl Alarms {
    /// No alarm came.
    pub fn none() -> Alarms
        ensures { result ≡ none_came }
    {
        Alarms {
            a1201: None,
            a1202: None,
            a1203: None,
        }
    }

    /// When the first alarm of a code came.
    pub fn first(&self, alarm: Alarm) -> Option<u32>
        ensures { result ≡ first_came alarm self.now }
    {
        match alarm {
            Alarm::A1201 => self.a1201,
            Alarm::A1202 => self.a1202,
            Alarm::A1203 => self.a1203,
        }
    }

    /// Takes the alarm of an answer, if it has one, and the centisecond of the answer. Only the
    /// first alarm of a code counts.
    pub fn came(&mut self, alarm: Option<Alarm>, time: u32)
        ensures { self.new ≡ came alarm time self.old }
    {
        match alarm {
            None => {}
            Some(Alarm::A1201) => self.a1201 = first_or(self.a1201, time),
            Some(Alarm::A1202) => self.a1202 = first_or(self.a1202, time),
            Some(Alarm::A1203) => self.a1203 = first_or(self.a1203, time),
        }
    }
}
