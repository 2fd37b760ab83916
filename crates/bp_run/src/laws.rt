//! The laws of runs, each as the contract of a function that does nothing.
ghost use Rattle.std.specs.Prelude.{◌≡◌, ◌≤◌, ◌<◌, ◌∷◌, ◌++◌, ℕ, List, [], length, map, nat_eq, Option, Some, None, is_some, Ok, Bool, true, false, not, slice_get};
ghost use Rattle.std.specs.List.{list_any};
ghost use Rattle.js_data.specs.Event.{PlainEvent};
ghost use Rattle.bp_log.specs.Options.{PlainOptions};
ghost use Rattle.bp_log.specs.Records.{Complete, verdict_of};
ghost use Rattle.bp_log.specs.declared.record.Record.{Record};
ghost use Rattle.bp_log.specs.declared.record.Record.TheVariants as recorded;
ghost use Rattle.bp_log.specs.declared.verdict.Verdict.{Verdict};
ghost use Rattle.bp_log.specs.declared.verdict.Verdict.TheVariants as verdict;
ghost use Rattle.bp_run.specs.Bodies.{Code};
ghost use Rattle.bp_run.specs.Configuration.{Configuration, Thread};
ghost use Rattle.bp_run.specs.Settling.{Pair, turn, settle, at_rest};
ghost use Rattle.bp_run.specs.Selecting.{live, stated};
ghost use Rattle.bp_run.specs.Choosing.{Choice, Touched, choice};
ghost use Rattle.bp_run.specs.Chosen.{IsChosen, AllBlocked};
ghost use Rattle.bp_run.specs.Numbers.{IsRising, number_of, touch_at, after_touch, touch_of};
ghost use Rattle.bp_run.specs.Story as story;
ghost use Rattle.bp_run.specs.Story.{story as told, alone, next, step, stepped};
ghost use Rattle.bp_run.specs.Injectors.{has_last_of, has_bad};
ghost use Rattle.bp_run.specs.Text.{text};

use bp_log::limits::MOST_THREADS;

/// With no injectors there is exactly one complete list of records that is a story.
pub fn one_run()
    ensures is_one { (l : Code ℕ (Option PlainEvent)) (o : PlainOptions) → o.injectors ≡ 0 →
        (c : Configuration ℕ) × (told l o (alone l o) ≡ Some c) × Complete (alone l o) }
    ensures is_only { (l : Code ℕ (Option PlainEvent)) (o : PlainOptions) (records : List Record)
        (c : Configuration ℕ) →
        o.injectors ≡ 0 → told l o records ≡ Some c → Complete records → records ≡ alone l o }
    ensures begins { (l : Code ℕ (Option PlainEvent)) (o : PlainOptions) (records : List Record)
        (c : Configuration ℕ) →
        o.injectors ≡ 0 → told l o records ≡ Some c →
        (later : List Record) × (records ++ later ≡ alone l o) }
{}

/// The records tell who is still read: an injector is read until its last record. They tell too
/// whether a line was bad.
pub fn records_tell_who_is_read()
    ensures read { (l : Code ℕ (Option PlainEvent)) (o : PlainOptions) (records : List Record)
        (c : Configuration ℕ) (j : ℕ) →
        told l o records ≡ Some c → j < o.injectors →
        list_any (nat_eq j) c.reading ≡ not (has_last_of j records) }
    ensures bad { (l : Code ℕ (Option PlainEvent)) (o : PlainOptions) (records : List Record)
        (c : Configuration ℕ) →
        told l o records ≡ Some c → is_some c.bad ≡ has_bad records }
{}

/// A run ends quietly only where no line was bad and, if it waits for its injectors, every one was
/// heard to its end; what is merged never ends it so.
pub fn quiet_runs_heard_everyone()
    ensures comes { (l : Code ℕ (Option PlainEvent)) (o : PlainOptions) (records : List Record)
        (c : Configuration ℕ) (n : ℕ) →
        told l o records ≡ Some c → next l o c ≡ story.Next.Ends (verdict.Quiet n) →
        (o.wait ≡ true → c.reading ≡ []) × (c.bad ≡ None) × (n ≡ c.stand.transitions) }
    ensures heard { (l : Code ℕ (Option PlainEvent)) (o : PlainOptions) (records : List Record)
        (c : Configuration ℕ) (n j : ℕ) →
        o.wait ≡ true → told l o records ≡ Some c → verdict_of records ≡ Some (verdict.Quiet n) →
        j < o.injectors → has_last_of j records ≡ true }
    ensures good { (l : Code ℕ (Option PlainEvent)) (o : PlainOptions) (records : List Record)
        (c : Configuration ℕ) (n : ℕ) →
        told l o records ≡ Some c → verdict_of records ≡ Some (verdict.Quiet n) →
        has_bad records ≡ false }
    ensures merged { (l : Code ℕ (Option PlainEvent)) (p : Pair ℕ) (n : ℕ) →
        (settle l p).verdict ≡ Some (verdict.Quiet n) → p.stand.verdict ≡ Some (verdict.Quiet n) }
{}

/// With no injectors it is nothing whether a run waits for them: the same records are a story and
/// print the same text, and the run is the same.
pub fn waiting_is_nothing_alone()
    ensures story { (l : Code ℕ (Option PlainEvent)) (o : PlainOptions) (wait : Bool)
        (records : List Record) →
        o.injectors ≡ 0 → told l (record o { wait = wait }) records ≡ told l o records }
    ensures text { (l : Code ℕ (Option PlainEvent)) (o : PlainOptions) (wait : Bool)
        (records : List Record) →
        o.injectors ≡ 0 → text l (record o { wait = wait }) records ≡ text l o records }
    ensures run { (l : Code ℕ (Option PlainEvent)) (o : PlainOptions) (wait : Bool) →
        o.injectors ≡ 0 → alone l (record o { wait = wait }) ≡ alone l o }
{}

/// A run that does not wait for its injectors never waits.
pub fn only_waiting_runs_wait()
    ensures { (l : Code ℕ (Option PlainEvent)) (o : PlainOptions) (c : Configuration ℕ) →
        next l o c ≡ story.Next.Waits → o.wait ≡ true }
{}

/// The text of a prefix of the records is a prefix of the text.
pub fn prefix_prints_prefix()
    ensures { (l : Code ℕ (Option PlainEvent)) (o : PlainOptions) (records more : List Record)
        (whole : List ℕ) →
        text l o (records ++ more) ≡ Some whole →
        (front : List ℕ) × (rest : List ℕ) × (text l o records ≡ Some front) × (whole ≡ front ++ rest) }
{}

/// Nothing follows the record of the end.
pub fn nothing_follows_the_end()
    ensures { (l : Code ℕ (Option PlainEvent)) (o : PlainOptions) (records more : List Record)
        (v : Verdict) (entry : Record) →
        told l o (records ++ recorded.End v ∷ entry ∷ more) ≡ None }
{}

/// A pair with a verdict or without an entry settles to where it stands, and each other one to what
/// its turn settles to.
pub fn turns_settle()
    ensures rests { (l : Code ℕ (Option PlainEvent)) (p : Pair ℕ) → at_rest p ≡ true →
        settle l p ≡ p.stand }
    ensures turns { (l : Code ℕ (Option PlainEvent)) (p : Pair ℕ) →
        length p.stand.threads ≤ MOST_THREADS → at_rest p ≡ false →
        settle l p ≡ settle l (turn l p) }
{}

/// What is selected is requested by a live b-thread or waits in the queue, and no live b-thread
/// blocks it.
pub fn selected_is_requested_and_not_blocked()
    ensures { (l : Code ℕ (Option PlainEvent)) (o : PlainOptions) (c : Configuration ℕ) (ch : Choice)
        (reached : List Touched) →
        next l o c ≡ story.Next.Selects ch reached → IsChosen l.has (live l c.stand) c.stand.queue ch }
{}

/// Where no set is at fault, an event is chosen exactly where some event is requested or waits in the
/// queue and no live b-thread blocks it.
pub fn something_is_chosen_where_it_can_be()
    ensures chosen { (l : Code ℕ (Option PlainEvent)) (o : PlainOptions) (c : Configuration ℕ)
        (ch : Choice) →
        choice l.has l.word o.strategy (live l c.stand) c.stand.queue c.drawn ≡ Ok (Some ch) →
        IsChosen l.has (live l c.stand) c.stand.queue ch }
    ensures nothing { (l : Code ℕ (Option PlainEvent)) (o : PlainOptions) (c : Configuration ℕ) →
        choice l.has l.word o.strategy (live l c.stand) c.stand.queue c.drawn ≡ Ok None →
        AllBlocked l.has (live l c.stand) c.stand.queue }
{}

/// A selected event does to each b-thread what the b-thread's own statement says: it moves, it ends,
/// or it stays as it is. As many b-threads are there afterwards.
pub fn only_the_reached_move_or_end()
    ensures says { (l : Code ℕ (Option PlainEvent)) (o : PlainOptions) (c : Configuration ℕ)
        (ch : Choice) (reached : List Touched) →
        next l o c ≡ story.Next.Selects ch reached → (i : ℕ) (t : Thread ℕ) →
        slice_get c.stand.threads i ≡ Some t →
        touch_of l.has ch.event (stated l i t) ≡ Ok (touch_at i reached) }
    ensures does { (l : Code ℕ (Option PlainEvent)) (o : PlainOptions) (c : Configuration ℕ)
        (ch : Choice) (reached : List Touched) →
        next l o c ≡ story.Next.Selects ch reached → (i : ℕ) (t : Thread ℕ) →
        slice_get c.stand.threads i ≡ Some t →
        slice_get (step c.stand ch.event ch.place reached).threads i
        ≡ Some (after_touch ch.event (touch_at i reached) t) }
    ensures count { (l : Code ℕ (Option PlainEvent)) (o : PlainOptions) (c : Configuration ℕ)
        (ch : Choice) (reached : List Touched) →
        length (step c.stand ch.event ch.place reached).threads ≡ length c.stand.threads }
{}

/// What runs after a transition, and after a turn, are distinct registered b-threads.
pub fn entries_are_distinct()
    ensures moved { (l : Code ℕ (Option PlainEvent)) (o : PlainOptions) (c : Configuration ℕ)
        (ch : Choice) (reached : List Touched) →
        next l o c ≡ story.Next.Selects ch reached →
        IsRising 0 (length c.stand.threads)
        (map number_of (stepped l c.stand ch.event ch.place reached).entries) }
    ensures turned { (l : Code ℕ (Option PlainEvent)) (p : Pair ℕ) →
        IsRising (length p.stand.threads) (length (turn l p).stand.threads)
        (map number_of (turn l p).entries) }
{}
