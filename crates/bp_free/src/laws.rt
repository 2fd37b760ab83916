//! The laws of free runs of programs, each as the contract of a function that does nothing.
ghost use Rattle.std.specs.Prelude.{◌≡◌, ◌+◌, ◌++◌, ℕ, List, length, Some, Ok, true, false};
ghost use Rattle.std.specs.List.{list_any};
ghost use Rattle.js_data.specs.Event.{PlainEvent, same_event};
ghost use Rattle.js_program.specs.PlainProgram.{PlainProgram};
ghost use Rattle.js_meaning.specs.Bodies.{Origin};
ghost use Rattle.bp_log.specs.Options.{PlainOptions};
ghost use Rattle.bp_log.specs.Records.{Complete};
ghost use Rattle.bp_log.specs.declared.record.Record.{Record};
ghost use Rattle.bp_run.specs.Configuration.{Stand};
ghost use Rattle.bp_run.specs.Selecting.{Enabled, live, requested, blocker};
ghost use Rattle.bp_code.specs.Code.{code_of, text_of};
ghost use Rattle.bp_free.specs.declared.answer.Answer.{Answer as PlainAnswer};
ghost use Rattle.bp_free.specs.Due as after;
ghost use Rattle.bp_free.specs.Due.{due};
ghost use Rattle.bp_free.specs.Free.{free};
ghost use Rattle.bp_free.specs.Nexts.{SelectsReal};
ghost use Rattle.bp_free.specs.Traces.{FreeRun, IsTrace};
ghost use Rattle.bp_free.specs.Audits.{IsAudit};

/// What is printed of a run without injectors is a trace, of as many events as it has records
/// before that of its end, whatever its strategy and its seed.
pub fn each_run_is_a_trace()
    ensures { (p : PlainProgram) (o : PlainOptions) (records : List Record) (bytes : List ℕ)
        (n : ℕ) →
        o.injectors ≡ 0 → Complete records → length records ≡ n + 1 →
        text_of p o records ≡ Some bytes → IsTrace (code_of p o) o bytes n }
{}

/// There is one answer about each trace, where what can be selected are events that a program can
/// name: the bytes tell whether they are a trace, and of how many events, and else which line is
/// the first wrong one, and why.
pub fn one_answer()
    ensures { (p : PlainProgram) (o : PlainOptions) (bytes : List ℕ) (a b : PlainAnswer) →
        SelectsReal (code_of p o) o → IsAudit (code_of p o) o bytes a →
        IsAudit (code_of p o) o bytes b → a ≡ b }
{}

/// Each free run goes on to an end.
pub fn each_free_run_ends()
    ensures { (p : PlainProgram) (o : PlainOptions) (events : List PlainEvent) (s : Stand Origin) →
        free (code_of p o) o events ≡ Some s →
        (run : FreeRun (code_of p o) o) × (more : List PlainEvent) × (run.events ≡ events ++ more) }
{}

/// Where events can be selected, one that is requested and not among them has a first b-thread that
/// blocks it.
pub fn what_is_requested_and_not_enabled_is_blocked()
    ensures { (p : PlainProgram) (o : PlainOptions) (s : Stand Origin) (x : Enabled)
        (e : PlainEvent) →
        due (code_of p o) o s ≡ after.Goes x → requested (live (code_of p o) s) e ≡ true →
        list_any (same_event e) x.inner ≡ false →
        (n : ℕ) × (blocker (code_of p o).has (live (code_of p o) s) e ≡ Ok (Some n)) }
{}
