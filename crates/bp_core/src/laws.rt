//! The laws of cores, each as the contract of a function that does nothing.
ghost use Rattle.std.specs.Prelude.{◌≡◌, ◌<◌, List, Some};
ghost use Rattle.js_program.specs.PlainProgram.{PlainProgram};
ghost use Rattle.js_meaning.specs.Bodies.{Origin};
ghost use Rattle.bp_log.specs.Options.{PlainOptions};
ghost use Rattle.bp_log.specs.declared.record.Record.{Record};
ghost use Rattle.bp_run.specs.Configuration.{Configuration};
ghost use Rattle.bp_run.specs.Story.{story};
ghost use Rattle.bp_steps.specs.Schedules.{schedule_of};
ghost use Rattle.bp_steps.specs.Steps.{Legal, made_by, opened};
ghost use Rattle.bp_code.specs.Code.{code_of};
ghost use Rattle.bp_code.specs.Nodes.{nodes_of};

/// The schedule of each story of a program is legal, and makes the records of the story.
pub fn stories_have_legal_schedules()
    ensures legal { (program : PlainProgram) (o : PlainOptions) (records : List Record)
        (c : Configuration Origin) → 0 < o.budget → story (code_of program o) o records ≡ Some c →
        Legal (code_of program o) o (nodes_of program o) (schedule_of (code_of program o) o records)
        (opened (code_of program o) o) }
    ensures makes { (program : PlainProgram) (o : PlainOptions) (records : List Record)
        (c : Configuration Origin) → 0 < o.budget → story (code_of program o) o records ≡ Some c →
        made_by (code_of program o) o (nodes_of program o)
        (schedule_of (code_of program o) o records) ≡ Some records }
{}
