//! The law of stories that go on, as the contract of a function that does nothing.
ghost use Rattle.std.specs.Prelude.{◌≡◌, ℕ, List, length, Some};
ghost use Rattle.std.specs.List.{All};
ghost use Rattle.js_program.specs.PlainProgram.{PlainProgram};
ghost use Rattle.js_meaning.specs.Bodies.{Origin};
ghost use Rattle.bp_log.specs.Options.{PlainOptions};
ghost use Rattle.bp_log.specs.declared.item.Item.{Item};
ghost use Rattle.bp_log.specs.declared.record.Record.{Record};
ghost use Rattle.bp_run.specs.Configuration.{Configuration};
ghost use Rattle.bp_run.specs.Story.{story};
ghost use Rattle.bp_code.specs.Code.{code_of};
ghost use Rattle.bp_complete.specs.Completions.{AreBrought, MergesBrought, Completion};

/// Every story of a program can be completed: what its injectors bring leads it to a verdict.
pub fn every_story_can_be_completed()
    ensures { (p : PlainProgram) (o : PlainOptions) (records : List Record) (c : Configuration Origin)
        (brought : List (List Item)) → length brought ≡ o.injectors → All AreBrought brought →
        story (code_of p o) o records ≡ Some c → MergesBrought records brought →
        Completion (code_of p o) o records brought }
{}
