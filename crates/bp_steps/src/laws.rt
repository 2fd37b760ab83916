//! The laws of steps, each as the contract of a function that does nothing.
ghost use Rattle.std.specs.Prelude.{◌≡◌, ◌<◌, ◌≤◌, ℕ, List, Option, Some};
ghost use Rattle.js_data.specs.Event.{PlainEvent};
ghost use Rattle.bp_log.specs.Options.{PlainOptions};
ghost use Rattle.bp_log.specs.declared.record.Record.{Record};
ghost use Rattle.bp_run.specs.Bodies.{Code};
ghost use Rattle.bp_run.specs.Configuration.{Configuration};
ghost use Rattle.bp_run.specs.Settling.{Body};
ghost use Rattle.bp_run.specs.Story.{story};
ghost use Rattle.bp_steps.specs.Schedules.{schedule_of};
ghost use Rattle.bp_steps.specs.Steps.{Nodes, made_by};

/// The schedule of a story is legal, and makes the records of the story.
pub fn stories_have_schedules()
    ensures { (l : Code ℕ (Option PlainEvent)) (o : PlainOptions) (nodes : Nodes ℕ)
        (records : List Record) (c : Configuration ℕ) →
        0 < o.budget → ((b : Body ℕ) → nodes b ≤ o.budget) → story l o records ≡ Some c →
        made_by l o nodes (schedule_of l o records) ≡ Some records }
{}
