// The whole step.
ghost use Rattle.std.specs.Prelude.{◌≡◌, ℕ, List, false};
ghost use Rattle.agc_plan.specs.declared.request.Request.{Request};
ghost use Rattle.agc_plan.specs.Steps.{begins};
ghost use Rattle.agc_wait.specs.Table.{waits_of};
ghost use Rattle.agc_wait.specs.Waits.{due_now};
ghost use Rattle.libagc.specs.Codes.{code_of, code_for};
ghost use Rattle.agc_image.specs.Images.{IsImage, IsLawful, IsOpened, IsSets, IsWritten, image_of};
ghost use Rattle.libagc.specs.Plans.{lacking};
ghost use Rattle.agc_machine.specs.Stands.{IsReady, IsSound, Acts, StepsTo};
ghost use Rattle.libagc.specs.Stepping.{AreHandedOut, Steps, Serves, Refuses, StepCoded};
ghost use Rattle.libagc.specs.Stepping.{request_code, Lacks, plan_for, step_to_c, step_refusal};
ghost use Rattle.libagc.specs.Stepping.{action_to_c};

use crate::fault::{Fault, image_in};
use crate::lacking::plan_lacks;
use crate::plans::AgcPlan;
use crate::reading::{AgcRequest, request_fault, request_of};
use crate::ready::unready;
use crate::reply::AgcReply;
use agc_image::{blank_image, open, write_back};
use agc_machine::{act_words, finish_words};
use agc_plan::{Fired, Reply, Request};
use agc_word::Erasable;

/// A task that fired: its address, and the word for its bank.
#[repr(C)]
#[derive(Clone, Copy)]
pub struct AgcFired {
    pub at: u32,
    pub bank: u32,
}

/// The result of a step.
#[repr(C)]
#[derive(Clone, Copy)]
pub struct AgcStep {
    /// As in an `AgcReply`, with the kinds of all requests, 1 to 14.
    pub code: u32,
    pub reply: u32,
    pub number: u32,
    /// How many tasks fired, 0 to 9.
    pub fired: u32,
    /// Which action of the last of these tasks raised the alarm, 1 to 4; 0 if none did.
    pub action: u32,
}

impl AgcStep {
    /// The result of a step that was not served.
    fn with_fault(fault: Fault) -> AgcStep
        ensures { result ≡ step_refusal (code_of fault) }
    {
        AgcStep {
            code: fault.code(),
            reply: 0,
            number: 0,
            fired: 0,
            action: 0,
        }
    }

    /// A reply in numbers.
    fn of(reply: &Reply, fired: u32, action: u32) -> AgcStep
        ensures reply { result ≡ step_to_c reply.now fired action }
        ensures served { result.code ≡ 0 }
    {
        let told = AgcReply::of(reply);
        AgcStep {
            code: 0,
            reply: told.reply,
            number: told.number,
            fired,
            action,
        }
    }
}

/// Writes the tasks that fired into the caller's places.
fn hand_out(list: &Fired, fired: &mut [AgcFired; 9])
    ensures { AreHandedOut list.now fired.old fired.new }
{
    for k in 0..list.len() {
        if let Some(task) = list.get(k) {
            fired[k] = AgcFired {
                at: u32::from(task.at.get()),
                bank: u32::from(task.bank.bits()),
            };
        }
    }
}

fn action_to_c(number: usize) -> u32
    ensures { result ≡ action_to_c number }
{
    u32::try_from(number).unwrap_or(0)
}

/// Begins an era in the image of an array, if one begins with the reply.
fn finish(plan: &AgcPlan<'_>, reply: &Reply, image: &mut Erasable, words: &mut [u16; 144])
    requires sound { IsSound image.old }
    requires none_due { begins reply.now ≡ false → due_now (waits_of image.old) ≡ 0 }
    requires written { IsWritten image.old words.old words.old }
    ensures steps { (asked : Request) (old : List ℕ)
        → Acts (plan_for plan.now.rows.now plan.now.entries.now old) asked old reply.now image.old
        → StepsTo (plan_for plan.now.rows.now plan.now.entries.now old) asked old reply.now
        image.new }
    ensures written { IsWritten image.new words.old words.new }
{
    if reply.begins() {
        finish_words(plan, reply, image);
        write_back(image, words);
    }
}

/// Serves a request on an open image, and writes it back.
#[inline(always)]
fn serve(
    words: &mut [u16; 144],
    plan: &AgcPlan<'_>,
    request: &Request,
    image: &mut Erasable,
    fired: &mut [AgcFired; 9],
    moment: &mut [u16; 144],
) -> AgcStep
    requires ready { IsReady image.old }
    ensures served { (sets : ℕ) → IsSets sets → IsOpened sets words.old image.old
        → Steps plan.now.rows.now plan.now.entries.now request.now sets words.old words.new
        moment.new fired.old fired.new result }
    ensures code { result.code ≡ 0 }
{
    let mut list = Fired::new();
    let (reply, action) = act_words(plan, image, request, &mut list);
    write_back(image, words);
    *moment = *words;
    finish(plan, &reply, image, words);
    hand_out(&list, fired);
    AgcStep::of(&reply, list.len() as u32, action_to_c(action))
}

/// The result of a step that isn't served: the moment has the words as they are.
fn refuse(words: &[u16; 144], moment: &mut [u16; 144], fault: Fault) -> AgcStep
    ensures moment { moment.new ≡ words.now }
    ensures result { result ≡ step_refusal (code_of fault) }
{
    *moment = *words;
    AgcStep::with_fault(fault)
}

/// The fault of a step beyond those of image and request: the time for the step, tidy words, the
/// plan.
fn lacks(image: &Erasable, plan: &AgcPlan<'_>) -> Option<Fault>
    requires { IsLawful image.now }
    ensures { Lacks (code_for result) image.now
        (code_for (lacking plan.now.rows.now plan.now.entries.now)) }
{
    match unready(image) {
        Some(fault) => Some(fault),
        None => plan_lacks(plan.rows, plan.entries),
    }
}

/// One request, with all that follows from it: in a tick the actions of the tasks that fire, and
/// after an alarm or a restart an era by the plan's entries. `fired` gets the tasks that fired, in
/// order. `moment` gets the words as they were before an era began, or as they are if the code
/// isn't 0. Codes: 1 to 3 for the image, 4 and 5 for the request, 6 where a task is due, 8 if the
/// words are such as no step leaves, 9 to 12 for the plan. Source: the request's own.
#[unsafe(no_mangle)]
pub extern "C" fn agc_step(
    words: &mut [u16; 144],
    sets: u32,
    plan: &AgcPlan<'_>,
    request: &AgcRequest,
    fired: &mut [AgcFired; 9],
    moment: &mut [u16; 144],
) -> AgcStep
    ensures code { StepCoded result.code sets words.old request.now
        (code_for (lacking plan.now.rows.now plan.now.entries.now)) }
    ensures served { result.code ≡ 0 → Serves plan.now.rows.now plan.now.entries.now
        request.now sets words.old words.new moment.new fired.old fired.new result }
    ensures with_fault { ¬ (result.code ≡ 0)
        → Refuses words.old words.new moment.new fired.old fired.new result }
{
    match image_in(words, sets) {
        Err(fault) => refuse(words, moment, fault),
        Ok(mut image) => match request_of(request) {
            None => refuse(words, moment, request_fault(request)),
            Some(asked) => match lacks(&image, plan) {
                Some(fault) => refuse(words, moment, fault),
                None => serve(words, plan, &asked, &mut image, fired, moment),
            },
        },
    }
}

/// As `agc_step`, for an array such as every step leaves it; it doesn't look at the plan. Codes 0,
/// 4 and 5 alone. Source: the request's own.
#[unsafe(no_mangle)]
pub extern "C" fn agc_step_trusted(
    words: &mut [u16; 144],
    sets: u32,
    plan: &AgcPlan<'_>,
    request: &AgcRequest,
    fired: &mut [AgcFired; 9],
    moment: &mut [u16; 144],
) -> AgcStep
    requires image { IsImage sets words.old }
    requires ready { IsReady (image_of sets words.old) }
    ensures code { result.code ≡ request_code request.now }
    ensures served { result.code ≡ 0 → Serves plan.now.rows.now plan.now.entries.now
        request.now sets words.old words.new moment.new fired.old fired.new result }
    ensures with_fault { ¬ (result.code ≡ 0)
        → Refuses words.old words.new moment.new fired.old fired.new result }
{
    match request_of(request) {
        None => refuse(words, moment, request_fault(request)),
        Some(asked) => {
            let mut image = blank_image(sets);
            open(words, sets, &mut image);
            serve(words, plan, &asked, &mut image, fired, moment)
        }
    }
}
