//! Laws of the plain model, for a student of the landing alarms: each is the contract of a function
//! that does nothing. Some are about a single call, on every list of jobs or of tasks, some about
//! every state that a run of requests reaches, and some about a plan. The requests, and
//! docs/MODEL.md, say whether the rules come from the listings or from the profile.

ghost use Rattle.std.specs.Prelude.{◌≡◌, ◌↔◌, ◌≤◌, ℕ, ◌+◌, List, Option, Some, None, IsSome, All};
ghost use Rattle.std.specs.Prelude.{length, true, [], ◌∷◌};
ghost use Rattle.agc_plan.specs.declared.reply.Alarm.{Alarm};
ghost use Rattle.agc_plan.specs.declared.reply.Alarm.TheVariants.{A1201, A1202, A1203};
ghost use Rattle.agc_plan.specs.declared.reply.Reply.TheVariants.{Alarmed, Established, Ticked};
ghost use Rattle.agc_plan.specs.declared.request.Action.{Action};
ghost use Rattle.agc_plan.specs.declared.request.Entry.{Entry};
ghost use Rattle.agc_plan.specs.declared.request.Request.{Request};
ghost use Rattle.agc_plan.specs.declared.request.Request.TheVariants.{Novac, Findvac, EndOfJob};
ghost use Rattle.agc_plan.specs.declared.request.Request.TheVariants.{Sleep, Prio, Change, Tick};
ghost use Rattle.agc_plan.specs.declared.request.Task.{Task};
ghost use Rattle.agc_plan.specs.Jobs.{Job, Jobs, best, least_unused, least_unowned, sleeper_from};
ghost use Rattle.agc_plan.specs.Jobs.{novac, findvac, rouse};
ghost use Rattle.agc_plan.specs.Tasks.{Pending, due_at, InOrder};
ghost use Rattle.agc_plan.specs.Base.{Base};
ghost use Rattle.agc_plan.specs.Begins.{Begins};
ghost use Rattle.agc_plan.specs.Plans.{Planned, Rows, task_twice, phase_twice, all_want};
ghost use Rattle.agc_plan.specs.Eras.{Work};
ghost use Rattle.agc_plan.specs.Steps.{Plain, with_listed, later_work, tick_fires, fired_in, step};
ghost use Rattle.agc_plan.specs.Steps.{reached, done, all_done, those_done};
ghost use Rattle.agc_plan.specs.Examples.{Examples};
ghost use Rattle.agc_plan.specs.Laws.{Lives, IsMostUrgent, NobodyIsAwake, IsLeastUnused};
ghost use Rattle.agc_plan.specs.Laws.{IsEachUsed, IsLeastUnowned, IsEachOwned, SomeAreaIsUnowned};
ghost use Rattle.agc_plan.specs.Laws.{IsFirstSleeper, NobodySleepsAt, IsUnrivalled};
ghost use Rattle.agc_plan.specs.Laws.{SomebodyIsAwake, IsRunnerAwake, IsNoAreaShared};
ghost use Rattle.agc_plan.specs.Laws.{IsEachAreaKnown, IsNothingDue, IsRequestDelayed};
ghost use Rattle.agc_plan.specs.Laws.{AreActionsDelayed, AreListingsDelayed, FiresThese};
ghost use Rattle.agc_plan.specs.Laws.{HasTwoRows, HasTwoEntries, HasEachArea, Misses, EndsByLast};
ghost use Rattle.agc_plan.specs.Laws.{ListsOne};
ghost use Rattle.agc_plan.specs.Laws.{as_action, living};

/// The best job is awake, no awake job has a greater priority, and none of the same priority a
/// lower number. There is one exactly where somebody is awake.
pub fn best_job_is_most_urgent()
    ensures best { (slots : List (Option Job)) (number : ℕ) → (best slots ≡ Some number)
        ↔ IsMostUrgent slots number }
    ensures nobody { (slots : List (Option Job)) → (best slots ≡ None) ↔ NobodyIsAwake slots }
{}

/// The lowest unused number is that of a slot without a job, and each lower number is some job's.
/// There is none exactly if each number is some job's.
pub fn least_unused_number_is_least()
    ensures least { (slots : List (Option Job)) (number : ℕ) → (least_unused 1 slots ≡ Some number)
        ↔ IsLeastUnused slots number }
    ensures full { (slots : List (Option Job)) → (least_unused 1 slots ≡ None) ↔ IsEachUsed slots }
{}

/// The lowest unowned area is one of 1 to 5 that no job owns, and each lower area is owned. There
/// is none exactly if each of the five is owned.
pub fn least_unowned_area_is_least()
    ensures least { (slots : List (Option Job)) (area : ℕ) → (least_unowned 5 1 slots ≡ Some area)
        ↔ IsLeastUnowned slots area }
    ensures full { (slots : List (Option Job)) → (least_unowned 5 1 slots ≡ None)
        ↔ IsEachOwned slots }
{}

/// A rouse finds the sleeping job with the lowest number whose address is called. It finds none
/// exactly if no job sleeps until this address is called.
pub fn sleeper_is_least()
    ensures least { (at : ℕ) (slots : List (Option Job)) (number : ℕ)
        → (sleeper_from 1 at slots ≡ Some number) ↔ IsFirstSleeper at slots number }
    ensures nobody { (at : ℕ) (slots : List (Option Job)) → (sleeper_from 1 at slots ≡ None)
        ↔ NobodySleepsAt at slots }
{}

/// A new job's number is the lowest unused one, whatever its area, and the area of FINDVAC's new
/// job is the lowest one that no job owned.
pub fn new_job_has_least_number_and_area()
    ensures novac { (priority : ℕ) (entry : Entry) (jobs : Jobs) (number : ℕ)
        → ((novac priority entry jobs).reply ≡ Established number)
        ↔ IsLeastUnused jobs.slots number }
    ensures findvac { (priority : ℕ) (entry : Entry) (jobs : Jobs) (number : ℕ)
        → (findvac priority entry jobs).reply ≡ Established number
        → IsLeastUnused jobs.slots number }
    ensures area { (priority : ℕ) (entry : Entry) (jobs : Jobs) (number : ℕ) (job : Job)
        → (findvac priority entry jobs).reply ≡ Established number
        → Lives (findvac priority entry jobs).jobs.slots number job
        → IsLeastUnowned jobs.slots job.area }
{}

/// FINDVAC is answered by alarm 1201 exactly where each of the five areas is owned, whatever
/// numbers are unused; NOVAC never is.
pub fn alarm_1201_where_five_areas_are_owned()
    ensures findvac { (priority : ℕ) (entry : Entry) (jobs : Jobs)
        → ((findvac priority entry jobs).reply ≡ Alarmed A1201) ↔ IsEachOwned jobs.slots }
    ensures novac { (priority : ℕ) (entry : Entry) (jobs : Jobs) → (novac priority entry jobs).reply
        ≡ Alarmed A1201 → ⊥ }
{}

/// NOVAC is answered by alarm 1202 exactly if there are as many jobs as numbers, and FINDVAC
/// exactly if, in addition, one of the five areas is not owned.
pub fn alarm_1202_where_each_number_is_used()
    ensures novac { (priority : ℕ) (entry : Entry) (jobs : Jobs)
        → ((novac priority entry jobs).reply ≡ Alarmed A1202)
        ↔ (living jobs.slots ≡ length jobs.slots) }
    ensures findvac { (priority : ℕ) (entry : Entry) (jobs : Jobs)
        → ((findvac priority entry jobs).reply ≡ Alarmed A1202)
        ↔ (SomeAreaIsUnowned jobs.slots × (living jobs.slots ≡ length jobs.slots)) }
{}

/// The eighth core set: in every state that a run of requests reaches, NOVAC is answered by alarm
/// 1202 exactly if there are as many jobs as core sets, seven or eight, and FINDVAC exactly if, in
/// addition, one of the five areas is not owned.
pub fn alarm_1202_with_as_many_jobs_as_sets()
    ensures novac { (plan : Planned) (base : Base) (log : List Request) (priority : ℕ)
        (entry : Entry) → ((step plan (Novac priority entry) (reached plan base log)).reply
        ≡ Alarmed A1202) ↔ (living (reached plan base log).work.jobs.slots ≡ plan.sets) }
    ensures findvac { (plan : Planned) (base : Base) (log : List Request) (priority : ℕ)
        (entry : Entry) → ((step plan (Findvac priority entry) (reached plan base log)).reply
        ≡ Alarmed A1202) ↔ (SomeAreaIsUnowned (reached plan base log).work.jobs.slots
        × (living (reached plan base log).work.jobs.slots ≡ plan.sets)) }
{}

/// If at most nine tasks wait, a listing is answered by alarm 1203 exactly if nine do.
pub fn alarm_1203_where_nine_tasks_wait()
    ensures { (delay : ℕ) (task : Task) (work : Work) → length work.agenda.tasks ≤ 9
        → ((with_listed delay task work).reply ≡ Alarmed A1203) ↔ (length work.agenda.tasks ≡ 9) }
{}

/// In every state that a run of requests reaches, a request is answered by alarm 1201 exactly if it
/// is FINDVAC and each of the five areas is owned; by 1202 exactly if there are as many jobs as
/// numbers, and it is NOVAC, or it is FINDVAC and an area is not owned; by 1203 exactly if it is a
/// listing and nine tasks wait. So no other request is answered by an alarm.
pub fn request_is_alarmed_where_it_misses_something()
    ensures { (plan : Planned) (base : Base) (log : List Request) (asked : Request) (alarm : Alarm)
        → ((step plan asked (reached plan base log)).reply ≡ Alarmed alarm)
        ↔ Misses alarm (as_action asked) (reached plan base log).work }
{}

/// In every state that a run of requests reaches, a tick ends by the task that fired last. If it
/// has an alarm, the alarm says what one of that task's actions did not find, in the state in which
/// it was done; the actions before it, and the tasks before that task, found what they needed. If
/// it has no alarm, every action found what it needed.
pub fn tick_ends_by_its_last_task()
    ensures { (plan : Planned) (base : Base) (log : List Request) (told : Option Alarm)
        → (step plan Tick (reached plan base log)).reply ≡ Ticked told
        → EndsByLast plan.rows (later_work (reached plan base log).work)
        (fired_in plan Tick (reached plan base log)) told }
{}

/// A task with one action does just that, as it would be done by itself.
pub fn one_action_is_done_as_by_itself()
    ensures done { (act : Action) (work : Work) → all_done (act ∷ []) work ≡ done act work }
    ensures those { (act : Action) (work : Work) → those_done (act ∷ []) work ≡ act ∷ [] }
{}

/// In every state that a run of requests reaches, where each task lists one task at most, a tick
/// never has alarm 1203: the task that fired made room.
pub fn tick_has_room_for_listings()
    ensures { (plan : Planned) (base : Base) (log : List Request) → ListsOne plan.rows
        → (step plan Tick (reached plan base log)).reply ≡ Ticked (Some A1203) → ⊥ }
{}

/// An alarm by itself changes neither jobs nor tasks: what follows is the beginning of an era.
pub fn alarm_changes_nothing()
    ensures novac { (priority : ℕ) (entry : Entry) (jobs : Jobs) (alarm : Alarm)
        → (novac priority entry jobs).reply ≡ Alarmed alarm → (novac priority entry jobs).jobs
        ≡ jobs }
    ensures findvac { (priority : ℕ) (entry : Entry) (jobs : Jobs) (alarm : Alarm)
        → (findvac priority entry jobs).reply ≡ Alarmed alarm → (findvac priority entry jobs).jobs
        ≡ jobs }
    ensures listed { (delay : ℕ) (task : Task) (work : Work) (alarm : Alarm)
        → (with_listed delay task work).reply ≡ Alarmed alarm → (with_listed delay task work).work
        ≡ work }
{}

/// After end of job, sleep, change of priority and change of job, asked in any state, no awake job
/// is strictly more urgent than the one that runs.
pub fn nobody_more_urgent_waits()
    ensures ended { (plan : Planned) (plain : Plain)
        → IsUnrivalled (step plan EndOfJob plain).plain.work.jobs }
    ensures slept { (plan : Planned) (at : ℕ) (plain : Plain)
        → IsUnrivalled (step plan (Sleep at) plain).plain.work.jobs }
    ensures prio { (plan : Planned) (priority : ℕ) (plain : Plain)
        → IsUnrivalled (step plan (Prio priority) plain).plain.work.jobs }
    ensures changed { (plan : Planned) (plain : Plain)
        → IsUnrivalled (step plan Change plain).plain.work.jobs }
{}

/// A new job, or one that wakes, doesn't preempt: who runs goes on.
pub fn nobody_preempts_by_coming()
    ensures novac { (priority : ℕ) (entry : Entry) (jobs : Jobs) (number : ℕ) → jobs.running
        ≡ Some number → (novac priority entry jobs).jobs.running ≡ Some number }
    ensures findvac { (priority : ℕ) (entry : Entry) (jobs : Jobs) (number : ℕ) → jobs.running
        ≡ Some number → (findvac priority entry jobs).jobs.running ≡ Some number }
    ensures roused { (at : ℕ) (jobs : Jobs) (number : ℕ) → jobs.running ≡ Some number
        → (rouse at jobs).jobs.running ≡ Some number }
{}

/// In every state that a run of requests reaches, somebody runs exactly where somebody is awake,
/// and the job that runs lives and is awake.
pub fn somebody_runs_where_somebody_is_awake()
    ensures exactly { (plan : Planned) (base : Base) (log : List Request)
        → IsSome (reached plan base log).work.jobs.running
        ↔ SomebodyIsAwake (reached plan base log).work.jobs.slots }
    ensures runner { (plan : Planned) (base : Base) (log : List Request)
        → IsRunnerAwake (reached plan base log).work.jobs }
{}

/// In every state that a run of requests reaches there are as many slots as core sets, one for each
/// number, so that no two jobs have the same number; a job's area is one of the five, or none; and
/// no area is owned by two jobs.
pub fn numbers_and_areas_are_distinct()
    ensures numbers { (plan : Planned) (base : Base) (log : List Request)
        → length (reached plan base log).work.jobs.slots ≡ plan.sets }
    ensures areas { (plan : Planned) (base : Base) (log : List Request)
        → IsEachAreaKnown (reached plan base log).work.jobs.slots }
    ensures distinct { (plan : Planned) (base : Base) (log : List Request)
        → IsNoAreaShared (reached plan base log).work.jobs.slots }
{}

/// In every state that a run of requests reaches, at most nine tasks wait.
pub fn at_most_nine_tasks_wait()
    ensures { (plan : Planned) (base : Base) (log : List Request)
        → length (reached plan base log).work.agenda.tasks ≤ 9 }
{}

/// Where each delay in the plan's rows is at least 1, nothing is due after a tick, unless an alarm
/// came: what an action lists is due later.
pub fn tick_leaves_nothing_due()
    ensures { (rows : Rows) (work : Work) → AreActionsDelayed rows
        → (tick_fires rows work).alarm ≡ None → IsNothingDue (tick_fires rows work).work.agenda }
{}

/// Where each delay is at least 1, in the plan's rows and entries and in what was asked, in every
/// state that a run of requests reaches nothing is due: it fired in the tick at which its time
/// came.
pub fn nothing_is_due_between_requests()
    ensures { (plan : Planned) (base : Base) (log : List Request) → AreActionsDelayed plan.rows
        → AreListingsDelayed plan.entries → All IsRequestDelayed log
        → IsNothingDue (reached plan base log).work.agenda }
{}

/// Where nothing was due, and each delay in the plan's rows is at least 1, the tasks that fire in a
/// tick are all due at the same time, which is the present, and fire in order of arrival: all of
/// them, or up to an alarm. The same fire where those due at that time are read off the tasks in
/// order.
pub fn due_tasks_fire_in_order_of_arrival()
    ensures arrival { (rows : Rows) (work : Work) → AreActionsDelayed rows
        → IsNothingDue work.agenda
        → FiresThese (due_at (work.agenda.time + 1) work.agenda.tasks) (tick_fires rows work) }
    ensures in_order { (rows : Rows) (work : Work) (ordered : List Pending)
        → AreActionsDelayed rows → IsNothingDue work.agenda → InOrder work.agenda.tasks ordered
        → FiresThese (due_at (work.agenda.time + 1) ordered) (tick_fires rows work) }
{}

/// The faults of a plan: one task has the rows at two places; one group and phase has the entries
/// at two places; each of the six groups has an entry with a FINDVAC job, one more than there are
/// areas.
pub fn faults_of_a_plan()
    ensures task_twice { (rows : Rows) → (task_twice rows ≡ true)
        ↔ HasTwoRows rows }
    ensures phase_twice { (entries : List Begins) → (phase_twice entries ≡ true)
        ↔ HasTwoEntries entries }
    ensures too_many_areas { (entries : List Begins) → (all_want entries ≡ true)
        ↔ HasEachArea entries }
{}

/// The definitions give the worked examples.
pub fn worked_examples()
    ensures { Examples }
{}
