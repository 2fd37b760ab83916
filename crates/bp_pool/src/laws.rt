//! The laws of the shared queue, each as the contract of a function that does nothing.
//!
//! `Shared base items views` is the rule that the queue keeps at every moment, whatever the threads
//! do: of the seats in it, oldest first, and of the views, one of each pass.
ghost use Rattle.std.specs.Prelude.{◌≡◌, ◌≢◌, ℕ, ◌+◌, ◌-◌, ◌<◌, List, [], ◌∷◌, ◌++◌, length, None, Contains, slice_set};
ghost use mathlib.Core.Option.{some};
ghost use lib.ListN.{get_elem?};
ghost use Rattle.js_meaning.specs.State.{Ground};
ghost use Rattle.bp_thread.specs.Jobs.{plain_job};
ghost use Rattle.bp_pool.specs.declared.seat.Seat.{Seat};
ghost use Rattle.bp_pool.specs.declared.rule.Hand.{Hand};
ghost use Rattle.bp_pool.specs.Carrying.{IsCarriedOn};
ghost use Rattle.bp_pool.specs.Seats.{seats_of, HaveOwnPlaces};
ghost use Rattle.bp_pool.specs.Shared.{Shared, Waits, hand, owner, all_parts, times_in_hand, in_hands};

/// Each seat that was lent is in the queue or in exactly one hand, once.
pub fn each_entry_is_in_one_place_once()
    ensures { (base : Ground) (items : List Seat) (views : List Hand) (entry : Seat)
        (rule : Shared base items views) → Contains rule.lent entry →
        seats_of entry.place items + in_hands entry.place views ≡ 1 }
{}

/// What is in the queue is the seat of an entry, with the entry's job carried on: with its number,
/// name, origin and replies, and with its effects whole where the entry's were. It has no outcome.
pub fn what_is_queued_is_its_entry_carried_on()
    ensures { (base : Ground) (items : List Seat) (views : List Hand) (x : Seat)
        (rule : Shared base items views) → Contains items x →
        (entry : Seat) × Contains rule.lent entry × (x.place ≡ entry.place)
        × IsCarriedOn base entry.job x.job × ((plain_job x.job).outcome ≡ None) }
{}

/// A push by a hand that holds an entry can't be refused: the queue, which has room for all that was
/// lent, holds fewer.
pub fn a_push_from_a_hand_has_room()
    ensures { (base : Ground) (items : List Seat) (views : List Hand) (pass : ℕ) (v : Hand)
        (rule : Shared base items views) → get_elem? views pass ≡ some v → 0 < length v.held →
        length items < length rule.lent }
{}

/// Once all parts are in one hand and the queue is empty, each seat that was lent is in that hand,
/// once, and none else is.
pub fn all_are_in_the_last_hand()
    ensures { (base : Ground) (views : List Hand) (pass : ℕ) (v : Hand) (place : ℕ)
        (rule : Shared base [] views) → get_elem? views pass ≡ some v → v.parts ≡ all_parts →
        times_in_hand place v ≡ seats_of place rule.lent }
{}

/// Each kind of step keeps the rule. The owner begins with all entries in hand and with all parts. A
/// push, the owner's or a worker's, takes the seat's entry out of the hand, and a pop puts it in; one
/// that finds none changes nothing. A pass that is split off gets one part and an empty hand. Where
/// two passes are joined, one has both hands and both numbers of parts, and the other is spent.
pub fn each_step_keeps_the_rule()
    ensures begins { (base : Ground) (lent : List Seat) → HaveOwnPlaces lent →
        Shared base [] (owner lent ∷ []) }
    ensures pushes { (base : Ground) (items : List Seat) (views : List Hand) (pass : ℕ) (v : Hand)
        (x : Seat) (rest : List ℕ) → Shared base items views → get_elem? views pass ≡ some v →
        0 < v.parts → v.held ≡ x.place ∷ rest → Waits base v.lent x →
        Shared base (items ++ x ∷ []) (slice_set views pass (hand v.lent rest v.parts)) }
    ensures pops { (base : Ground) (items : List Seat) (views : List Hand) (pass : ℕ) (v : Hand)
        (x : Seat) → Shared base (x ∷ items) views → get_elem? views pass ≡ some v → 0 < v.parts →
        Shared base items (slice_set views pass (hand v.lent (x.place ∷ v.held) v.parts)) }
    ensures splits { (base : Ground) (items : List Seat) (views : List Hand) (pass : ℕ) (v : Hand) →
        Shared base items views → get_elem? views pass ≡ some v → 1 < v.parts →
        Shared base items
        (slice_set views pass (hand v.lent v.held (v.parts - 1)) ++ hand v.lent [] 1 ∷ []) }
    ensures joins { (base : Ground) (items : List Seat) (views : List Hand) (pass other : ℕ)
        (v u : Hand) → Shared base items views → get_elem? views pass ≡ some v → 0 < v.parts →
        let both = hand v.lent (v.held ++ u.held) (v.parts + u.parts) in
        other ≢ pass → get_elem? (slice_set views pass both) other ≡ some u →
        Shared base items (slice_set (slice_set views pass both) other (hand [] [] 0)) }
{}
