//! The laws of jobs, each as the contract of a function that does nothing.
ghost use Rattle.std.specs.Prelude.{◌≡◌, ◌++◌, ℕ, List};
ghost use Rattle.js_data.specs.Event.{PlainEvent};
ghost use Rattle.js_meaning.specs.State.{Ground, Effect, effects_of, effects_since};
ghost use Rattle.js_meaning.specs.Bodies.{evaluation};
ghost use Rattle.bp_thread.specs.declared.job.Job.{Job};
ghost use Rattle.bp_thread.specs.Jobs.{plain_job, StandsAt, IsWhole};

/// What a body did begins what it does at last, wherever it stands: what was taken of a job that goes
/// on stays, whatever events it is given later.
pub fn effects_stay()
    ensures made { (base : Ground) (budget begun : ℕ) (made : List Effect) (j : Job)
        (later : List PlainEvent) → StandsAt base budget begun made j →
        (rest : List Effect) × (effects_of (evaluation base budget (plain_job j).origin
        ((plain_job j).replies ++ later)) ≡ made ++ rest) }
    ensures since { (base : Ground) (budget : ℕ) (j : Job) → IsWhole base budget j →
        (rest : List Effect) × (effects_since (evaluation base budget (plain_job j).origin
        (plain_job j).replies) ≡ (plain_job j).effects ++ rest) }
{}
