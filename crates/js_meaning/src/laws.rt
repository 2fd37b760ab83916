//! The laws of evaluation, each as the contract of a function that does nothing.
ghost use Rattle.std.specs.Prelude.{◌≡◌, ◌≤◌, ◌-◌, ◌++◌, ◌∷◌, ℕ, List, [], Option, None, slice_get};
ghost use Rattle.js_data.specs.Event.{PlainEvent};
ghost use Rattle.js_value.specs.Value.{PlainValue};
ghost use Rattle.js_program.specs.declared.builtin.Mode.{Mode};
ghost use Rattle.js_meaning.specs.State.{Ground, Setting, State, Completion, Left, went, stopped, effects_of, effects_since};
ghost use Rattle.js_meaning.specs.Statements.{one_iteration};
ghost use Rattle.js_meaning.specs.Meaning.{within, allowed, eval, iterations_of, begins, does_node};
ghost use Rattle.js_meaning.specs.Bodies.{Origin, function, mode_of, start_of, evaluation};
ghost use Rattle.js_meaning.specs.Later.{Follows};
ghost use Rattle.js_meaning.specs.Modes.{OnlyAnswers, StandsOnGround};
ghost use Rattle.js_meaning.specs.Replies.{GoesOn, with_more};

/// A node takes one unit of fuel and then does what its form says with the outcomes of its parts.
pub fn evaluation_begins()
    ensures { (g : Setting) (n : ℕ) (s : State) →
        eval g n s
        ≡ begins (does_node g (eval g) (iterations_of g) (slice_get g.base.program.nodes n)) s }
{}

/// A loop tests, does its body, does what comes between two iterations, and begins again.
pub fn loops_iterate_again()
    ensures { (g : Setting) (test : Option ℕ) (body : ℕ) (next : Option ℕ) (s : State) →
        iterations_of g test body next s
        ≡ one_iteration (eval g) test body next (iterations_of g test body next) s }
{}

/// Under any larger bound of the recursion the outcome is the same.
pub fn any_larger_bound_serves()
    ensures { (g : Setting) (bound n : ℕ) (s : State) → allowed g.budget s ≤ bound →
        within g bound n s ≡ eval g n s }
{}

/// What an evaluation leaves follows on what it found, and where a node completes at least one node
/// less is allowed.
pub fn evaluation_goes_on()
    ensures node { (g : Setting) (n : ℕ) (s : State) → Follows g.budget s (eval g n s) }
    ensures body { (base : Ground) (budget : ℕ) (o : Origin) (replies : List PlainEvent) →
        Follows budget (start_of base budget o replies) (evaluation base budget o replies) }
    ensures fewer { (g : Setting) (n : ℕ) (s t : State) (c : Completion) →
        eval g n s ≡ went c t → allowed g.budget t ≤ allowed g.budget s - 1 }
{}

/// Where forms do not act, in predicates, an evaluation has no effects; it stops in b-threads alone,
/// and violates nothing in predicates.
pub fn modes_limit_evaluation()
    ensures node { (g : Setting) (n : ℕ) (s : State) → OnlyAnswers g.mode s (eval g n s) }
    ensures body { (base : Ground) (budget : ℕ) (o : Origin) (replies : List PlainEvent) →
        OnlyAnswers (mode_of o) (start_of base budget o replies) (evaluation base budget o replies) }
{}

/// Outside of the top level the constants are those of the ground.
pub fn only_the_top_level_declares_constants()
    ensures node { (g : Setting) (n : ℕ) (s : State) → s.constants ≡ None →
        StandsOnGround (eval g n s) }
    ensures body { (base : Ground) (budget : ℕ) (mode : Mode) (f : PlainValue) (args : List PlainValue)
        (replies : List PlainEvent) →
        StandsOnGround (evaluation base budget (function mode f args) replies) }
{}

/// With more replies an evaluation that stopped goes on after the effects that it made, and every
/// other one is the same.
pub fn more_replies_go_on()
    ensures node { (g : Setting) (n : ℕ) (s : State) (more : List PlainEvent) →
        GoesOn more (eval g n s) (eval g n (with_more more s)) }
    ensures body { (base : Ground) (budget : ℕ) (o : Origin) (replies more : List PlainEvent) →
        GoesOn more (evaluation base budget o replies) (evaluation base budget o (replies ++ more)) }
{}

/// What a body did since its last reply is what it did beyond its effects with one reply fewer.
pub fn replies_deliver_effects()
    ensures { (base : Ground) (budget : ℕ) (o : Origin) (replies : List PlainEvent) (e : PlainEvent)
        (statement priority : PlainValue) (line : ℕ) (l : Left) →
        evaluation base budget o replies ≡ stopped statement priority line l →
        effects_of (evaluation base budget o (replies ++ e ∷ []))
        ≡ l.effects ++ effects_since (evaluation base budget o (replies ++ e ∷ [])) }
{}
