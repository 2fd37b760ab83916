//! The law of views, as the contract of a function that does nothing.
ghost use Rattle.std.specs.Prelude.{◌≡◌, ◌∷◌, ℕ, List, Option};
ghost use Rattle.js_data.specs.Event.{PlainEvent};
ghost use Rattle.bp_base.specs.Pieces.{Appends, AppendsFront};
ghost use Rattle.bp_log.specs.Options.{PlainOptions};
ghost use Rattle.bp_log.specs.declared.record.Record.{Record};
ghost use Rattle.bp_run.specs.Bodies.{Code};
ghost use Rattle.bp_view.specs.declared.summary.Summary.{Summary};
ghost use Rattle.bp_view.specs.Growing.{last_of};
ghost use Rattle.bp_view.specs.Lines.{summary_line};
ghost use Rattle.bp_view.specs.Views.{summary_of, AreOfRun, IsWholeViewText};
ghost use Rattle.bp_view.specs.Watching.{IsPartWatched, IsViewed};

/// Summaries of beginnings of the records of a run were shown, the first of no records, the last of all. Then what
/// was written of them, with the first line before it, is the text of a view of these records, which ends with
/// the line of all of them; or a front of such a text.
pub fn a_view_is_of_its_run()
    ensures whole { (l : Code ℕ (Option PlainEvent)) (o : PlainOptions) (records : List Record)
        (first : Summary) (later : List Summary) (start before after : Option (List ℕ)) →
        AreOfRun l o records (first ∷ later) →
        last_of (first ∷ later) ≡ summary_of l o records →
        Appends start (summary_line first) before →
        IsViewed first (first ∷ later) before after →
        (text : List ℕ) × IsWholeViewText l o records text × Appends start text after }
    ensures part { (l : Code ℕ (Option PlainEvent)) (o : PlainOptions) (records : List Record)
        (first : Summary) (later : List Summary) (start before after : Option (List ℕ)) →
        AreOfRun l o records (first ∷ later) →
        last_of (first ∷ later) ≡ summary_of l o records →
        Appends start (summary_line first) before →
        IsPartWatched first (first ∷ later) before after →
        (text : List ℕ) × IsWholeViewText l o records text × AppendsFront start text after }
{}
