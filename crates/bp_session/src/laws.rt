//! The law of what was heard, as the contract of a function that does nothing.
ghost use Rattle.std.specs.Prelude.{◌≡◌, ℕ, List, ◌∷◌, ◌++◌, Option, true};
ghost use Rattle.bp_log.specs.declared.item.Item.{Item};
ghost use Rattle.bp_log.specs.declared.item.Item.TheVariants.{Failed};
ghost use Rattle.bp_log.specs.declared.record.Record.{Record};
ghost use Rattle.bp_feeds.specs.Items.{has_end};
ghost use Rattle.bp_feeds.specs.Reading.{BeginsItems};
ghost use Rattle.bp_steps.specs.Merging.{items_by};
ghost use Rattle.bp_session.specs.Heard.{IsHeard, IsHeardWhole, IsHeardToFault};

/// A source came back, and an injector had offered what was recorded of it and some items after that:
/// what was recorded was heard of the source; where its end is among it, all of it was; and where a fault
/// is the next item, it is what stood before that.
pub fn what_was_recorded_was_heard()
    ensures heard { (j : ℕ) (records : List Record) (behind : List Item)
        (start left : Option (List ℕ)) → BeginsItems start left (items_by j records ++ behind)
        → IsHeard start left (items_by j records) }
    ensures whole { (j : ℕ) (records : List Record) (behind : List Item)
        (start left : Option (List ℕ)) → BeginsItems start left (items_by j records ++ behind)
        → has_end (items_by j records) ≡ true → IsHeardWhole start left (items_by j records) }
    ensures to_fault { (j : ℕ) (records : List Record) (behind : List Item)
        (start left : Option (List ℕ))
        → BeginsItems start left (items_by j records ++ Failed ∷ behind)
        → IsHeardToFault start left (items_by j records) }
{}
