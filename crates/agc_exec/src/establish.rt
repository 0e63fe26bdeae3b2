// New jobs: NOVAC and FINDVAC.
ghost use Rattle.std.specs.Prelude.{◌≡◌, ◌<◌, ◌≤◌, Some};
ghost use Rattle.agc_word.specs.Layout.{sets_in};
ghost use Rattle.agc_plan.specs.Jobs.{least_unused};
ghost use Rattle.agc_plan.specs.Places.{place_of};
ghost use Rattle.agc_exec.specs.Calls.{DoesNovac, DoesFindvac};
ghost use Rattle.agc_exec.specs.Image.{sets_of, IsLawfulWords};
ghost use Rattle.agc_exec.specs.Sets.{slots_of, entries_of};
ghost use Rattle.agc_exec.specs.Stages.{DoesEstablish, DoesAdmit, IsFreeAt, IsUnowned, replied};

use crate::area::{free_area, take_area};
use crate::core_set::{PRIORITY_UNIT, write_new};
use crate::newjob::note_newcomer;
use crate::search::{free_number, mark_used, somebody_runs, take_over};
use agc_plan::{Alarm, Entry, JobNo, Priority, Reply};
use agc_word::layout::address_of;
use agc_word::{Erasable, Word};

/// A new job of this number comes to set k, the first free one, and runs if nobody did.
fn admit(e: &mut Erasable, k: usize, number: JobNo, priority: Priority, entry: Entry, area: u16)
    requires lawful { IsLawfulWords e.old }
    requires free { (k < sets_in e.old) × IsFreeAt (sets_of e.old) k }
    requires first { k ≡ place_of 0 (entries_of (sets_of e.old)) }
    requires least { Some number ≡ least_unused 1 (slots_of (sets_of e.old)) }
    requires five { area ≤ 5 }
    requires own { 0 < area → IsUnowned (sets_of e.old) area }
    ensures { DoesAdmit number priority entry area e.old e.new }
{
    let ran = somebody_runs(e);
    let urgency = PRIORITY_UNIT * priority.get() as u16 + address_of(area);
    write_new(e, k, number, entry, Word::of_bits(urgency));
    take_over(e, k, ran);
    take_area(e, area);
    note_newcomer(e, k, ran);
}

/// One more job, if there is room. None where all numbers are used, and then nothing changes.
fn establish(e: &mut Erasable, priority: Priority, entry: Entry, area: u16) -> Option<JobNo>
    requires lawful { IsLawfulWords e.old }
    requires five { area ≤ 5 }
    requires own { 0 < area → IsUnowned (sets_of e.old) area }
    ensures { DoesEstablish priority entry area e.old e.new (replied result) }
{
    let mut used = [false; 9];
    let k = mark_used(e, &mut used);
    match free_number(e, &used) {
        None => None,
        Some(number) => {
            admit(e, k, number, priority, entry, area);
            Some(number)
        }
    }
}

/// The reply: the new job's number, or that there was no room.
fn reply_of(number: Option<JobNo>) -> Reply
    ensures { result ≡ replied number }
{
    match number {
        None => Reply::Alarmed(Alarm::A1202),
        Some(number) => Reply::Established(number),
    }
}

/// NOVAC: establishes a job without a VAC area, with work words 00000; it runs at once if no job
/// was running. Returns `Established` with its number, the lowest unused one. If there are as many
/// jobs as core sets, returns `Alarmed` 1202 and changes nothing. Source: the listings' EXECUTIVE
/// section; which number and set, work words 00000, and that it runs at once if no job was running:
/// profile.
pub fn novac(e: &mut Erasable, priority: Priority, entry: Entry) -> Reply
    requires { IsLawfulWords e.old }
    ensures { DoesNovac priority entry e.old e.new result }
{
    reply_of(establish(e, priority, entry, 0))
}

/// FINDVAC: as NOVAC, with the least free VAC area. `Established` with its number, or `Alarmed`
/// 1201 where all five areas are owned, else 1202 where as many jobs live as there are sets, and
/// then nothing changes. Source: the listings' EXECUTIVE section; which number, set and area, and
/// the rest as NOVAC's: profile.
pub fn findvac(e: &mut Erasable, priority: Priority, entry: Entry) -> Reply
    requires { IsLawfulWords e.old }
    ensures { DoesFindvac priority entry e.old e.new result }
{
    match free_area(e) {
        None => Reply::Alarmed(Alarm::A1201),
        Some(area) => reply_of(establish(e, priority, entry, area)),
    }
}
