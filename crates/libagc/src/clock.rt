// Time that passes by a caller's timetable.
ghost use Rattle.std.specs.Prelude.{◌≡◌, ℕ};
ghost use Rattle.agc_clock.specs.Clocks.{Clocked};
ghost use Rattle.agc_exec.specs.Image.{jobs_in};
ghost use Rattle.libagc.specs.Codes.{Coded, code_for};
ghost use Rattle.agc_image.specs.Images.{IsImage, IsLawful, image_of};
ghost use Rattle.libagc.specs.Times.{ClockAsks, alarm_to_c, source_to_c, begins_era};
ghost use Rattle.libagc.specs.Times.{clock_after, times_lack, event_after, timetable_from_c};

use crate::fault::image_in;
use crate::lines::numbers_of;
use crate::reading::AgcRequest;
use crate::reply::AgcNumber;
use crate::steps::AgcStep;
use crate::times::times_lack;
use crate::timetable::{AgcEvent, AgcTimetable, event_after};
use agc_clock::{Clock, Source};
use agc_image::{blank_image, open};
use agc_word::Erasable;

fn source_of(source: Source) -> u32
    ensures { result ≡ source_to_c source }
{
    match source {
        Source::Clock => 1,
        Source::Event(number) => {
            if number < 4294967293 {
                number as u32 + 2
            } else {
                4294967295
            }
        }
    }
}

/// The next request of a clock, for an open image.
fn ask_clock(
    table: &AgcTimetable<'_>,
    image: &Erasable,
    clock: &mut Clock,
    request: &mut AgcRequest,
) -> AgcNumber
    requires { IsLawful image.now }
    ensures asks { ClockAsks (timetable_from_c table.now.lasts table.now.stolen.now
        table.now.costs.now table.now.events.now table.now.requests.now) (jobs_in image.now)
        clock.old clock.new request.old request.new result.number }
    ensures code { result.code ≡ 0 }
{
    let (asked, _elapsed) = clock.next(image, table);
    match asked {
        None => AgcNumber::of(0),
        Some(asked) => {
            *request = numbers_of(&asked.request);
            AgcNumber::of(source_of(asked.source))
        }
    }
}

/// The next request of a clock, which counts time since `clock` was all zeros, for a machine with
/// these words. `request` gets its numbers. The number returned says who asks: 1 is the clock
/// itself, 2 the first event, 3 the second and so on; 0 means that the time is over, and then the
/// request is unchanged. Codes: 1 to 3 for the image, 15 to 17 for the timetable.
#[unsafe(no_mangle)]
pub extern "C" fn agc_clock_next(
    words: &[u16; 144],
    sets: u32,
    table: &AgcTimetable<'_>,
    clock: &mut Clock,
    request: &mut AgcRequest,
) -> AgcNumber
    ensures code { Coded result.code sets words.now
        (code_for (times_lack table.now.stolen.now table.now.costs.now table.now.events.now
        table.now.requests.now)) }
    ensures served { result.code ≡ 0 → ClockAsks
        (timetable_from_c table.now.lasts table.now.stolen.now table.now.costs.now
        table.now.events.now table.now.requests.now)
        (jobs_in (image_of sets words.now)) clock.old clock.new request.old request.new
        result.number }
    ensures with_fault { ¬ (result.code ≡ 0) → (clock.new ≡ clock.old)
        × ((request.new ≡ request.old) × (result.number ≡ 0)) }
{
    match image_in(words, sets) {
        Err(fault) => AgcNumber::with_fault(fault),
        Ok(image) => match times_lack(table.stolen, table.costs, table.events, table.requests) {
            Some(fault) => AgcNumber::with_fault(fault),
            None => ask_clock(table, &image, clock, request),
        },
    }
}

/// As `agc_clock_next`, for an array that is known to have an image; it doesn't look at the
/// timetable.
#[unsafe(no_mangle)]
pub extern "C" fn agc_clock_next_trusted(
    words: &[u16; 144],
    sets: u32,
    table: &AgcTimetable<'_>,
    clock: &mut Clock,
    request: &mut AgcRequest,
) -> AgcNumber
    requires { IsImage sets words.now }
    ensures code { result.code ≡ 0 }
    ensures served { ClockAsks
        (timetable_from_c table.now.lasts table.now.stolen.now table.now.costs.now
        table.now.events.now table.now.requests.now)
        (jobs_in (image_of sets words.now)) clock.old clock.new request.old request.new
        result.number }
{
    let mut image = blank_image(sets);
    open(words, sets, &mut image);
    ask_clock(table, &image, clock, request)
}

fn began(step: &AgcStep) -> bool
    ensures { result ≡ begins_era step.now }
{
    step.reply == 10 || step.reply == 13 || step.reply == 14
}

/// Gives a clock the outcome of a request, even of one that it didn't make: the words that the step
/// left, and the step. Codes: 1 to 3 for the image.
#[unsafe(no_mangle)]
pub extern "C" fn agc_clock_served(
    words: &[u16; 144],
    sets: u32,
    step: &AgcStep,
    clock: &mut Clock,
) -> u32
    ensures code { Coded result sets words.now 0 }
    ensures served { result ≡ 0
        → clock.new ≡ clock_after step.now (jobs_in (image_of sets words.now)) clock.old }
    ensures with_fault { ¬ (result ≡ 0) → clock.new ≡ clock.old }
{
    match image_in(words, sets) {
        Err(fault) => fault.code(),
        Ok(image) => {
            clock.served(&image, began(step));
            0
        }
    }
}

/// As `agc_clock_served`, for an array that is known to have an image. Code 0 alone.
#[unsafe(no_mangle)]
pub extern "C" fn agc_clock_served_trusted(
    words: &[u16; 144],
    sets: u32,
    step: &AgcStep,
    clock: &mut Clock,
) -> u32
    requires { IsImage sets words.now }
    ensures code { result ≡ 0 }
    ensures served { clock.new ≡ clock_after step.now (jobs_in (image_of sets words.now))
        clock.old }
{
    let mut image = blank_image(sets);
    open(words, sets, &mut image);
    clock.served(&image, began(step));
    0
}

fn alarm_of(step: &AgcStep) -> u32
    ensures { result ≡ alarm_to_c step.now }
{
    if step.reply == 10 || step.reply == 13 {
        step.number
    } else {
        0
    }
}

/// An event takes what came of a request, also of one that no clock asked for: if it counts from
/// the alarm of this step, it does so from the clock's centisecond on, and then counts from the
/// start. Any other stays. Returns the alarm for which it still waits, 0 for none. Call it for each
/// event that waits, with each step of which `agc_clock_served` is told.
#[unsafe(no_mangle)]
pub extern "C" fn agc_clock_told(step: &AgcStep, clock: &Clock, event: &mut AgcEvent) -> u32
    ensures event { event.new
        ≡ event_after (alarm_to_c step.now) clock.now.time event.old }
    ensures waits { result ≡ event.new.after }
{
    *event = event_after(event, alarm_of(step), clock.time());
    event.after
}
