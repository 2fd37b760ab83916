//! Ends by kind, with how many there are of each and the first seed that ends so.
ghost use Rattle.std.specs.Prelude.{◌≡◌, ◌+◌, ◌<◌, ◌^◌, [], flat_map, string_bytes, IfOk, OnOk};
ghost use Rattle.bp_explain.specs.Seeds.{count_more, counted_text};
ghost use Rattle.bp_seeds.specs.inner.Merged.{merged, total, place_of};

use bp_log::Memory;
use js_data::Text;
use std::alloc::Global;
use std::marker::Model;

/// A kind of end, how many seeds end so, and the first of them. Contracts see it as the record of
/// the three.
#[derive(Drop)]
pub(crate) struct Counted {
    kind: Text,
    count: u64,
    first: u64,
}

impl Model for Counted {
    ghost use Rattle.bp_explain.specs.Seeds.{Counted as PlainCounted};

    ghost Value = { PlainCounted };

    ghost view = { λ c. record { kind = c.kind; count = c.count; first = c.first } };
}

impl Counted {
    /// One end of this kind, of this seed.
    pub(crate) fn one(kind: Text, seed: u64) -> Counted
        ensures { result ≡ record { kind = kind; count = 1; first = seed } }
    {
        Counted {
            kind,
            count: 1,
            first: seed,
        }
    }

    /// The line that tells it.
    fn line(&self, alloc: Global) -> Result<String, Memory>
        ensures { IfOk result (λ s. string_bytes s ≡ counted_text self.now) }
    {
        let (count, kind, first) = (self.count, self.kind.as_str(), self.first);
        format!(in alloc; "{count} {kind}, first seed {first}\n")
    }
}

/// Ends by kind, in the order of their first seeds. Contracts see them as the list.
#[derive(Drop)]
pub(crate) struct Counts {
    items: Vec<Counted>,
}

impl Model for Counts {
    ghost use Rattle.std.specs.Prelude.{List};
    ghost use Rattle.bp_explain.specs.Seeds.{Counted as PlainCounted};

    ghost Value = { List PlainCounted };

    ghost view = { λ c. c.items.items };
}

impl Counts {
    /// No ends.
    pub(crate) fn new(alloc: Global) -> Counts
        ensures { result ≡ [] }
    {
        Counts {
            items: Vec::new(alloc),
        }
    }

    /// Where the kind stands.
    #[tactic(auto, using(crate::proofs::Places::looked_at_first, crate::proofs::Places::looked_on, crate::proofs::Places::found, crate::proofs::Places::not_found))]
    fn place_of(&self, kind: &Text) -> Option<usize>
        ensures { result ≡ place_of kind.now self.now }
    {
        for (place, known) in self.items.iter().enumerate() {
            if known.kind.same(kind) {
                return Some(place);
            }
        }
        None
    }

    /// As many more of a kind.
    #[tactic(auto, using(crate::proofs::Places::not_counted))]
    pub(crate) fn add(&mut self, more: Counted) -> Result<(), Memory>
        requires { total self.old + more.count < 2 ^ 64 }
        ensures { OnOk result (self.new ≡ count_more more self.old) }
    {
        match self.place_of(&more.kind) {
            Some(place) => self.items[place].count += more.count,
            None => self.items.push(more)?,
        }
        Ok(())
    }

    /// Adds the counts of later seeds.
    pub(crate) fn merge(&mut self, later: Counts) -> Result<(), Memory>
        requires { total self.old + total later < 2 ^ 64 }
        ensures { OnOk result (self.new ≡ merged self.old later) }
    {
        for more in later.items {
            self.add(more)?;
        }
        Ok(())
    }

    /// A line for each kind.
    pub(crate) fn text(&self, alloc: Global) -> Result<String, Memory>
        ensures { IfOk result (λ s. string_bytes s ≡ flat_map counted_text self.now) }
    {
        let mut text = String::new(alloc);
        for kind in self.items.iter() {
            text.push_str(kind.line(alloc)?.as_str())?;
        }
        Ok(text)
    }
}
