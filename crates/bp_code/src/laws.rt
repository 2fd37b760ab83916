//! The laws of the runs of programs, each as the contract of a function that does nothing.
ghost use Rattle.std.specs.Prelude.{◌≡◌, ◌≤◌, ◌<◌, [], ◌∷◌, ◌++◌, ℕ, List, length, Some, None, Ok, Bool, true, false, not, nat_eq, is_some, slice_get};
ghost use Rattle.std.specs.List.{list_any};
ghost use Rattle.js_program.specs.PlainProgram.{PlainProgram};
ghost use Rattle.js_meaning.specs.Bodies.{Origin};
ghost use Rattle.bp_log.specs.Options.{PlainOptions};
ghost use Rattle.bp_log.specs.Records.{Complete, verdict_of};
ghost use Rattle.bp_log.specs.declared.record.Record.{Record};
ghost use Rattle.bp_log.specs.declared.record.Record.TheVariants as recorded;
ghost use Rattle.bp_log.specs.declared.verdict.Verdict.{Verdict};
ghost use Rattle.bp_log.specs.declared.verdict.Verdict.TheVariants.{Quiet};
ghost use Rattle.bp_draw.specs.Words.{draw_word};
ghost use Rattle.bp_run.specs.Configuration.{Configuration, Thread};
ghost use Rattle.bp_run.specs.Settling.{Pair, turn, settle, at_rest};
ghost use Rattle.bp_run.specs.Selecting.{live, stated};
ghost use Rattle.bp_run.specs.Choosing.{Choice, Touched, choice};
ghost use Rattle.bp_run.specs.Chosen.{IsChosen, AllBlocked};
ghost use Rattle.bp_run.specs.Injectors.{has_last_of, has_bad};
ghost use Rattle.bp_run.specs.Numbers.{touch_at, after_touch, touch_of};
ghost use Rattle.bp_run.specs.Story as story;
ghost use Rattle.bp_run.specs.Story.{story as told, next, step};
ghost use Rattle.bp_code.specs.Code.{code_of, records_alone, text_of};

use bp_log::limits::MOST_THREADS;

/// With no injectors there is exactly one complete list of records that is a story of the program.
pub fn one_run()
    ensures is_one { (p : PlainProgram) (o : PlainOptions) → o.injectors ≡ 0 →
        (c : Configuration Origin) × (told (code_of p o) o (records_alone p o) ≡ Some c)
        × Complete (records_alone p o) }
    ensures is_only { (p : PlainProgram) (o : PlainOptions) (records : List Record)
        (c : Configuration Origin) →
        o.injectors ≡ 0 → told (code_of p o) o records ≡ Some c → Complete records →
        records ≡ records_alone p o }
    ensures begins { (p : PlainProgram) (o : PlainOptions) (records : List Record)
        (c : Configuration Origin) →
        o.injectors ≡ 0 → told (code_of p o) o records ≡ Some c →
        (later : List Record) × (records ++ later ≡ records_alone p o) }
{}

/// The records tell who is still read: an injector is read until its last record. They tell too
/// whether a line was bad.
pub fn records_tell_who_is_read()
    ensures read { (p : PlainProgram) (o : PlainOptions) (records : List Record)
        (c : Configuration Origin) (j : ℕ) →
        told (code_of p o) o records ≡ Some c → j < o.injectors →
        list_any (nat_eq j) c.reading ≡ not (has_last_of j records) }
    ensures bad { (p : PlainProgram) (o : PlainOptions) (records : List Record)
        (c : Configuration Origin) →
        told (code_of p o) o records ≡ Some c → is_some c.bad ≡ has_bad records }
{}

/// A run ends quietly only where no line was bad and, if it waits for its injectors, every one was
/// heard to its end; what is merged never ends it so.
pub fn quiet_runs_heard_everyone()
    ensures comes { (p : PlainProgram) (o : PlainOptions) (records : List Record)
        (c : Configuration Origin) (n : ℕ) →
        told (code_of p o) o records ≡ Some c → next (code_of p o) o c ≡ story.Next.Ends (Quiet n) →
        (o.wait ≡ true → c.reading ≡ []) × (c.bad ≡ None) × (n ≡ c.stand.transitions) }
    ensures heard { (p : PlainProgram) (o : PlainOptions) (records : List Record)
        (c : Configuration Origin) (n j : ℕ) →
        o.wait ≡ true → told (code_of p o) o records ≡ Some c →
        verdict_of records ≡ Some (Quiet n) →
        j < o.injectors → has_last_of j records ≡ true }
    ensures good { (p : PlainProgram) (o : PlainOptions) (records : List Record)
        (c : Configuration Origin) (n : ℕ) →
        told (code_of p o) o records ≡ Some c → verdict_of records ≡ Some (Quiet n) →
        has_bad records ≡ false }
    ensures merged { (p : PlainProgram) (o : PlainOptions) (q : Pair Origin) (n : ℕ) →
        (settle (code_of p o) q).verdict ≡ Some (Quiet n) → q.stand.verdict ≡ Some (Quiet n) }
{}

/// With no injectors it is nothing whether a run waits for them: the same records are a story of the
/// program and print the same text, and the run is the same.
pub fn waiting_is_nothing_alone()
    ensures story { (p : PlainProgram) (o : PlainOptions) (wait : Bool) (records : List Record) →
        o.injectors ≡ 0 →
        told (code_of p o) (record o { wait = wait }) records ≡ told (code_of p o) o records }
    ensures text { (p : PlainProgram) (o : PlainOptions) (wait : Bool) (records : List Record) →
        o.injectors ≡ 0 → text_of p (record o { wait = wait }) records ≡ text_of p o records }
    ensures run { (p : PlainProgram) (o : PlainOptions) (wait : Bool) →
        o.injectors ≡ 0 → records_alone p (record o { wait = wait }) ≡ records_alone p o }
{}

/// A run that does not wait for its injectors never waits.
pub fn only_waiting_runs_wait()
    ensures { (p : PlainProgram) (o : PlainOptions) (c : Configuration Origin) →
        next (code_of p o) o c ≡ story.Next.Waits → o.wait ≡ true }
{}

/// The text of a prefix of the records is a prefix of the text.
pub fn prefix_prints_prefix()
    ensures { (p : PlainProgram) (o : PlainOptions) (records more : List Record) (whole : List ℕ) →
        text_of p o (records ++ more) ≡ Some whole →
        (front : List ℕ) × (rest : List ℕ) × (text_of p o records ≡ Some front)
        × (whole ≡ front ++ rest) }
{}

/// Nothing follows the record of the end.
pub fn nothing_follows_the_end()
    ensures { (p : PlainProgram) (o : PlainOptions) (records more : List Record) (v : Verdict)
        (entry : Record) →
        told (code_of p o) o (records ++ recorded.End v ∷ entry ∷ more) ≡ None }
{}

/// A pair with a verdict or without an entry settles to where it stands, and each other one to what
/// its turn settles to.
pub fn turns_settle()
    ensures rests { (p : PlainProgram) (o : PlainOptions) (q : Pair Origin) → at_rest q ≡ true →
        settle (code_of p o) q ≡ q.stand }
    ensures turns { (p : PlainProgram) (o : PlainOptions) (q : Pair Origin) →
        length q.stand.threads ≤ MOST_THREADS → at_rest q ≡ false →
        settle (code_of p o) q ≡ settle (code_of p o) (turn (code_of p o) q) }
{}

/// What is selected is requested by a live b-thread or waits in the queue, and no live b-thread
/// blocks it.
pub fn selected_is_requested_and_not_blocked()
    ensures { (p : PlainProgram) (o : PlainOptions) (c : Configuration Origin) (ch : Choice)
        (reached : List Touched) →
        next (code_of p o) o c ≡ story.Next.Selects ch reached →
        IsChosen (code_of p o).has (live (code_of p o) c.stand) c.stand.queue ch }
{}

/// Where no set is at fault, an event is chosen exactly where some event is requested or waits in the
/// queue and no live b-thread blocks it; the words are those of the seed.
pub fn something_is_chosen_where_it_can_be()
    ensures chosen { (p : PlainProgram) (o : PlainOptions) (c : Configuration Origin) (ch : Choice) →
        choice (code_of p o).has (draw_word o.seed) o.strategy (live (code_of p o) c.stand) c.stand.queue
        c.drawn ≡ Ok (Some ch) →
        IsChosen (code_of p o).has (live (code_of p o) c.stand) c.stand.queue ch }
    ensures nothing { (p : PlainProgram) (o : PlainOptions) (c : Configuration Origin) →
        choice (code_of p o).has (draw_word o.seed) o.strategy (live (code_of p o) c.stand) c.stand.queue
        c.drawn ≡ Ok None →
        AllBlocked (code_of p o).has (live (code_of p o) c.stand) c.stand.queue }
{}

/// A selected event does to each b-thread what the b-thread's own statement says: it moves, it ends,
/// or it stays as it is.
pub fn only_the_reached_move_or_end()
    ensures says { (p : PlainProgram) (o : PlainOptions) (c : Configuration Origin) (ch : Choice)
        (reached : List Touched) →
        next (code_of p o) o c ≡ story.Next.Selects ch reached → (i : ℕ) (t : Thread Origin) →
        slice_get c.stand.threads i ≡ Some t →
        touch_of (code_of p o).has ch.event (stated (code_of p o) i t) ≡ Ok (touch_at i reached) }
    ensures does { (p : PlainProgram) (o : PlainOptions) (c : Configuration Origin) (ch : Choice)
        (reached : List Touched) →
        next (code_of p o) o c ≡ story.Next.Selects ch reached → (i : ℕ) (t : Thread Origin) →
        slice_get c.stand.threads i ≡ Some t →
        slice_get (step c.stand ch.event ch.place reached).threads i
        ≡ Some (after_touch ch.event (touch_at i reached) t) }
{}
