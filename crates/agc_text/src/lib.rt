//! Text formats: the lines of a script, the faults for which a text or an input is refused, the
//! lines of replies, and a machine's report.
#![tactic(auto)]

mod buffer;
mod fault;
mod input;
mod line;
pub mod numbers;
mod numerals;
mod pulses;
mod replies;
mod reporting;
mod script;
mod session;
mod spelling;
mod text_writer;
mod writing;

pub use buffer::Buffer;
pub use fault::{Output, ReadFault, ScriptFault};
pub use input::{MOST_BYTES, read_all};
pub use line::{parse_action, parse_line};
pub use numbers::{parse_address, parse_word};
pub use numerals::{add_number, add_octal_digit, add_priority, add_word};
pub use pulses::report_pulses;
pub use replies::{answer_text, put_reply};
pub use reporting::report;
pub use script::read_script;
pub use session::write_answer_to;
pub use spelling::{alarm_code, put_action, put_answer, put_request, put_task, request_text};
pub use text_writer::{Field, TextWriter};
pub use writing::put;
