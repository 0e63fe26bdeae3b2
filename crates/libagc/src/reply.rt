// The replies of calls.
ghost use Rattle.std.specs.Prelude.{◌≡◌, false};
ghost use Rattle.libagc.specs.Codes.{code_of, alarm_code, reply_to_c, refusal};

use crate::fault::Fault;
use agc_plan::{Alarm, Reply};

/// The reply to a request: a code, 0 if it was served, then the kind of the reply, and its number:
/// that of a job, an alarm code as in FAILREG, or 0.
#[repr(C)]
#[derive(Clone, Copy)]
pub struct AgcReply {
    pub code: u32,
    pub reply: u32,
    pub number: u32,
}

fn alarm_code(alarm: Alarm) -> u32
    ensures { result ≡ alarm_code alarm }
{
    match alarm {
        Alarm::A1201 => 0o1201,
        Alarm::A1202 => 0o1202,
        Alarm::A1203 => 0o1203,
    }
}

impl AgcReply {
    fn reply_with(reply: u32, number: u32) -> AgcReply
        ensures { result ≡ record { code = 0; reply = reply; number = number } }
    {
        AgcReply {
            code: 0,
            reply,
            number,
        }
    }

    /// A reply in numbers.
    pub(crate) fn of(reply: &Reply) -> AgcReply
        ensures reply { result ≡ reply_to_c reply.now }
        ensures served { result.code ≡ 0 }
    {
        match reply {
            Reply::Established(number) => AgcReply::reply_with(1, u32::from(number.get())),
            Reply::Left(Some(number)) => AgcReply::reply_with(2, u32::from(number.get())),
            Reply::Left(None) => AgcReply::reply_with(3, 0),
            Reply::Roused(number) => AgcReply::reply_with(4, u32::from(number.get())),
            Reply::NoSleeper => AgcReply::reply_with(5, 0),
            Reply::NoJob => AgcReply::reply_with(6, 0),
            Reply::Runs(number) => AgcReply::reply_with(7, u32::from(number.get())),
            Reply::Stored => AgcReply::reply_with(8, 0),
            Reply::Listed => AgcReply::reply_with(9, 0),
            Reply::Alarmed(alarm) => AgcReply::reply_with(10, alarm_code(*alarm)),
            Reply::Phased => AgcReply::reply_with(11, 0),
            Reply::Ticked(None) => AgcReply::reply_with(12, 0),
            Reply::Ticked(Some(alarm)) => AgcReply::reply_with(13, alarm_code(*alarm)),
            Reply::Restarted => AgcReply::reply_with(14, 0),
        }
    }

    /// The reply to a call that was not served.
    pub(crate) fn with_fault(fault: Fault) -> AgcReply
        ensures { result ≡ refusal (code_of fault) }
    {
        AgcReply {
            code: fault.code(),
            reply: 0,
            number: 0,
        }
    }
}

/// A number as a reply: a code, and the number, which is 0 if the code isn't.
#[repr(C)]
#[derive(Clone, Copy)]
pub struct AgcNumber {
    pub code: u32,
    pub number: u32,
}

impl AgcNumber {
    pub(crate) fn of(number: u32) -> AgcNumber
        ensures { result ≡ record { code = 0; number = number } }
    {
        AgcNumber { code: 0, number }
    }

    /// The reply to a call that was not served.
    pub(crate) fn with_fault(fault: Fault) -> AgcNumber
        ensures { result ≡ record { code = code_of fault; number = 0 } }
    {
        AgcNumber {
            code: fault.code(),
            number: 0,
        }
    }
}

/// A yes or no as a reply: a code, and the answer, which is false if the code isn't 0.
#[repr(C)]
#[derive(Clone, Copy)]
pub struct AgcTruth {
    pub code: u32,
    pub truth: bool,
}

/// A task of the Waitlist: a code, and the task's address and its bank's word, both 0 if the code
/// isn't.
#[repr(C)]
#[derive(Clone, Copy)]
pub struct AgcTask {
    pub code: u32,
    pub at: u32,
    pub bank: u32,
}

impl AgcTask {
    /// The reply to a call that was not served.
    pub(crate) fn with_fault(fault: Fault) -> AgcTask
        ensures { result ≡ record { code = code_of fault; at = 0; bank = 0 } }
    {
        AgcTask {
            code: fault.code(),
            at: 0,
            bank: 0,
        }
    }
}
