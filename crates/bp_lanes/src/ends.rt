//! The two ends of a lane: a mouth offers, and an ear takes.
ghost use Rattle.std.specs.Prelude.{◌≡◌, ◌+◌, ◌≤◌, ◌<◌, [], ◌∷◌, ◌++◌, length, true, IfErr, OnOk, IsOk, IfSome, IfNone, None, option_to_list};
ghost use mathlib.Core.List.{IsPrefix};
ghost use Rattle.std.specs.Option.{unwrap_or};
ghost use Rattle.rtrb.specs.Ring.{known_items};

use bp_log::Item;
use rtrb::{Consumer, Producer, PushError};

/// The end of a lane that offers. It knows of a number of free places.
#[derive(Drop)]
pub struct Mouth {
    producer: Producer<Item>,
}

/// The end of a lane that takes. It knows of items that it can take.
#[derive(Drop)]
pub struct Ear {
    consumer: Consumer<Item>,
    // How many items are left, once the lane was closed.
    left: Option<usize>,
    ghost counted: { unwrap_or left (length (known_items consumer))
        ≡ length (known_items consumer) },
}

impl Mouth {
    ghost use Rattle.bp_lanes.specs.Lanes.{offered, free_places, IsSameMouth};

    pub(crate) fn new(producer: Producer<Item>) -> Mouth
        ensures { result.producer ≡ producer }
    {
        Mouth { producer }
    }

    /// Offers an item, into one of the free places. Takes no memory and does not wait.
    ///
    /// # Errors
    ///
    /// The item comes back only where no free place is known, and then nothing was offered.
    pub fn offer(&mut self, item: Item) -> Result<(), Item>
        ensures lane { IsSameMouth self.old self.new }
        ensures offers { OnOk result (offered self.new ≡ offered self.old ++ item ∷ []) }
        ensures place { OnOk result (free_places self.old ≤ free_places self.new + 1) }

        ensures back { IfErr result (λ x. (x ≡ item) × (offered self.new ≡ offered self.old)) }
        ensures full { IfErr result (λ _. free_places self.new ≡ 0) }
        ensures succeeds { 0 < free_places self.old → IsOk result }
    {
        match self.producer.push(item) {
            Ok(()) => Ok(()),
            Err(PushError::Full(item)) => Err(item),
        }
    }
}

impl Ear {
    ghost use Rattle.bp_lanes.specs.Lanes.{offered, free_places, taken, known, is_closed, IsLane, IsSameMouth, IsSameEar};

    pub(crate) fn new(consumer: Consumer<Item>) -> Ear
        ensures { (result.consumer ≡ consumer) × (result.left ≡ None) }
    {
        Ear {
            consumer,
            left: None,
        }
    }

    /// The oldest item that was not yet taken. None only where no item is known, and after `close`
    /// exactly where all was taken. Takes no memory and does not wait.
    pub fn take(&mut self) -> Option<Item>
        ensures lane { IsSameEar self.old self.new × (is_closed self.new ≡ is_closed self.old) }
        ensures takes { taken self.new ≡ taken self.old ++ option_to_list result }
        ensures known { IfSome result (λ item. IsPrefix (known self.old) (item ∷ known self.new)) }

        ensures none { IfNone result ((known self.old ≡ []) × (known self.new ≡ [])) }
        ensures closed { is_closed self.old ≡ true
            → known self.old ≡ option_to_list result ++ known self.new }
    {
        match self.left {
            None => self.consumer.pop().ok(),
            Some(0) => None,
            Some(left) => {
                let item = self.consumer.pop_known();
                self.left = Some(left - 1);
                Some(item)
            }
        }
    }

    /// Compares the ear with the mouth of its lane: what was taken, and then what is still to be
    /// taken, is what was offered by then. No place is lost. Takes no memory and does not wait.
    pub fn close(&mut self, mouth: &mut Mouth)
        requires { IsLane mouth.old self.old }
        ensures ear { IsSameEar self.old self.new × (taken self.new ≡ taken self.old) }
        ensures mouth { IsSameMouth mouth.old mouth.new × (offered mouth.new ≡ offered mouth.old) }
        ensures places { free_places mouth.old ≤ free_places mouth.new }
        ensures closed { is_closed self.new ≡ true }
        ensures all { taken self.new ++ known self.new ≡ offered mouth.new }
    {
        let left = self.consumer.slots_beside(&mut mouth.producer);
        self.left = Some(left);
    }
}
