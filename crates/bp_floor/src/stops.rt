//! Where a job stands.
ghost use Rattle.std.specs.Prelude.{◌≡◌, ℕ, Some, option_map};
ghost use Rattle.js_value.specs.Value.{PlainSet};
ghost use Rattle.js_program.specs.PlainProgram.{PlainProgram};
ghost use Rattle.js_meaning.specs.Bodies.{evaluation};
ghost use Rattle.bp_log.specs.Options.{PlainOptions};
ghost use Rattle.bp_run.specs.Bodies.{Outcome as Reached};
ghost use Rattle.bp_thread.specs.Jobs.{plain_job, stop_line};
ghost use Rattle.bp_thread.specs.Views.{plain_statement};
ghost use Rattle.bp_code.specs.Code.{ground_for};
ghost use Rattle.bp_floor.specs.inner.Seats.{IsOwn};
ghost use Rattle.bp_floor.specs.Stops.{stop_with};

use bp_thread::{Job, Outcome, Statement};

/// The line and the statement of the stop where a job stands, if it stands at one.
pub(crate) fn stop_of_job(job: &Job) -> Option<(u32, &Statement)>
    ensures { (program : PlainProgram) → (o : PlainOptions) → (n : ℕ) →
        IsOwn program o n job.now → (x : Reached PlainSet) → (plain_job job.now).outcome ≡ Some x →
        option_map (λ p. (p.0, plain_statement p.1.now)) result
        ≡ stop_with x (stop_line (evaluation
        (ground_for program o.budget (plain_job job.now).origin) o.budget
        (plain_job job.now).origin (plain_job job.now).replies)) }
{
    let Some(outcome) = job.outcome() else {
        return None;
    };
    match outcome {
        Outcome::Stopped(statement) => match job.line() {
            Some(line) => Some((line, statement)),
            None => None,
        },
        _ => None,
    }
}
