// Requests on the tables alone.
ghost use Rattle.std.specs.Prelude.{◌≡◌, ◌⊎◌, length, false};
ghost use Rattle.agc_plan.specs.Base.{fresh_base};
ghost use Rattle.agc_plan.specs.declared.request.Request.TheVariants.{Tick};
ghost use Rattle.agc_phase.specs.Image.{base_of};
ghost use Rattle.agc_wait.specs.Calls.{Dispatches};
ghost use Rattle.agc_wait.specs.Table.{waits_of};
ghost use Rattle.agc_wait.specs.Waits.{is_due};
ghost use Rattle.agc_image.specs.Images.{Changed, IsLawful, IsSets, image_of};
ghost use Rattle.libagc.specs.Codes.{Coded, code_unless};
ghost use Rattle.libagc.specs.declared.fault.Fault.TheVariants.{NotNow};
ghost use Rattle.libagc.specs.Requests.{Does, Empties, IsFresh, Refuses, Serves, call_code};
ghost use Rattle.libagc.specs.Requests.{is_late, listing, one_due};

use crate::fault::{Fault, image_in};
use crate::numbers;
use crate::reading::{AgcRequest, request_fault, request_of};
use crate::reply::{AgcReply, AgcTask};
use agc_exec::{change_job, end_of_job, findvac, job_sleep, job_wake, novac, prio_change, store};
use agc_image::write_back;
use agc_phase::set_phase;
use agc_plan::{Alarm, Reply, Request};
use agc_wait::{count_time3, dispatch, due, list};
use agc_word::Erasable;

fn listing(accepted: bool) -> Reply
    ensures { result ≡ listing accepted }
{
    if accepted {
        Reply::Listed
    } else {
        Reply::Alarmed(Alarm::A1203)
    }
}

/// Takes out all jobs and tasks.
fn restart(e: &mut Erasable)
    requires { IsLawful e.old }
    ensures empties { Empties (base_of e.old) e.old e.new }
    ensures lawful { IsLawful e.new }
    ensures size { length e.new ≡ length e.old }
{
    agc_exec::clear(e);
    agc_wait::clear(e);
}

/// Takes out all jobs and tasks, phases and codes, whatever stood there.
fn start_afresh(e: &mut Erasable)
    ensures empties { Empties fresh_base e.old e.new }
    ensures lawful { IsLawful e.new }
    ensures size { length e.new ≡ length e.old }
{
    agc_exec::clear(e);
    agc_wait::clear(e);
    agc_phase::clear(e);
}

/// Serves a request on the tables alone.
#[tactic(auto, using(agc_image::proofs::Frames::lawful_by_cores))]
fn serve(request: &Request, e: &mut Erasable) -> Reply
    requires lawful { IsLawful e.old }
    requires none_due { request.now ≡ Tick → is_due (waits_of e.old) ≡ false }
    ensures does { Does request.now e.old e.new result }
    ensures lawful { IsLawful e.new }
    ensures size { length e.new ≡ length e.old }
{
    match *request {
        Request::Novac(priority, entry) => novac(e, priority, entry),
        Request::Findvac(priority, entry) => findvac(e, priority, entry),
        Request::EndOfJob => end_of_job(e),
        Request::Sleep(at) => job_sleep(e, at),
        Request::Rouse(at) => job_wake(e, at),
        Request::Prio(priority) => prio_change(e, priority),
        Request::Change => change_job(e),
        Request::Store(place, word) => store(e, place, word),
        Request::List(delay, task) => listing(list(e, delay, task).is_ok()),
        Request::Tick => {
            let _is_due = count_time3(e);
            Reply::Ticked(None)
        }
        Request::SetPhase(group, phase) => {
            set_phase(e, group, phase);
            Reply::Phased
        }
        Request::Restart => {
            restart(e);
            Reply::Restarted
        }
        Request::Fresh => {
            start_afresh(e);
            Reply::Restarted
        }
    }
}

fn is_late(request: &Request, e: &Erasable) -> bool
    requires { IsLawful e.now }
    ensures { result ≡ is_late request.now e.now }
{
    match request {
        Request::Tick => due(e),
        _ => false,
    }
}

/// One request on the tables alone: no era begins, whatever the reply. A tick counts TIME3, and
/// `agc_dispatch` then takes out what is due. A restart takes out all jobs and tasks, a fresh start
/// also phases and codes. Codes: 1 to 3 for the image, 4 and 5 for the request, 6 for a tick where
/// a task is due before it. Source: the request's own.
#[unsafe(no_mangle)]
pub extern "C" fn agc_call(words: &mut [u16; 144], sets: u32, request: &AgcRequest) -> AgcReply
    ensures code { Coded result.code sets words.old (call_code request.now sets words.old) }
    ensures served { result.code ≡ 0 → Serves request.now sets words.old words.new result }
    ensures with_fault { ¬ (result.code ≡ 0) → Refuses words.old words.new result }
{
    match image_in(words, sets) {
        Err(fault) => AgcReply::with_fault(fault),
        Ok(mut image) => match request_of(request) {
            None => AgcReply::with_fault(request_fault(request)),
            Some(asked) => {
                if is_late(&asked, &image) {
                    return AgcReply::with_fault(Fault::NotNow);
                }
                let reply = serve(&asked, &mut image);
                write_back(&image, words);
                AgcReply::of(&reply)
            }
        },
    }
}

/// Takes out the first task that is due, and answers it: of those due now the earliest arrival.
/// Code 6 if none is due. Source: the listings' WAITLIST section.
#[unsafe(no_mangle)]
pub extern "C" fn agc_dispatch(words: &mut [u16; 144], sets: u32) -> AgcTask
    ensures code { Coded result.code sets words.old (code_unless (one_due sets words.old) NotNow) }
    ensures served { result.code ≡ 0
        → Changed (λ old new. Dispatches old (record { at = result.at; bank = result.bank }) new)
        sets words.old words.new }
    ensures with_fault { ¬ (result.code ≡ 0)
        → (words.new ≡ words.old) × (result.at ≡ 0) × (result.bank ≡ 0) }
{
    match image_in(words, sets) {
        Err(fault) => AgcTask::with_fault(fault),
        Ok(mut image) => {
            if !due(&image) {
                return AgcTask::with_fault(Fault::NotNow);
            }
            let task = dispatch(&mut image);
            write_back(&image, words);
            AgcTask {
                code: 0,
                at: u32::from(task.at.get()),
                bank: u32::from(task.bank.bits()),
            }
        }
    }
}

/// Writes the image of a fresh start, whatever stood there: no jobs, no tasks, all groups inactive,
/// and no codes. All words of a core set are 00000 but PRIORITY, which is 77777. Answers the code,
/// 0 or 1. Source: the listings' FRESH START AND RESTART section.
#[unsafe(no_mangle)]
pub extern "C" fn agc_clear(words: &mut [u16; 144], sets: u32) -> u32
    ensures code { (IsSets sets × (result ≡ 0)) ⊎ (¬ IsSets sets × (result ≡ 1)) }
    ensures served { result ≡ 0 → IsFresh sets words.old words.new }
    ensures with_fault { ¬ (result ≡ 0) → words.new ≡ words.old }
{
    match numbers::sets(sets) {
        None => Fault::NoSuchSets.code(),
        Some(count) => {
            let mut image = Erasable::new(count);
            start_afresh(&mut image);
            write_back(&image, words);
            0
        }
    }
}
