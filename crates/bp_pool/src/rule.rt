//! The rule of the shared queue: each seat that was lent is in the queue or in one hand, once.
use crate::seat::Seat;
use crossbeam_queue::RuledArrayQueue;
use crossbeam_queue::protocol::{Join, Lesson, Outcome, Protocol, Split};
use std::collections::LinkedList;
use std::marker::{Brand, PhantomData};

/// What the holder of a pass knows of the shared queue. Proofs alone speak of it: no value of it is
/// made.
pub struct Hand {
    /// The seats that were lent.
    pub lent: LinkedList<Seat>,
    /// The places of those in hand.
    pub held: LinkedList<usize>,
    /// How many of all parts it has.
    pub parts: u64,
}

/// Which seats were lent, and on which ground. Each call picks it.
pub trait Lending {
    ghost use Rattle.std.specs.Prelude.{List};
    ghost use Rattle.js_meaning.specs.State as js;
    ghost use Rattle.bp_pool.specs.declared.seat.Seat.{Seat};

    ghost lent: { List Seat };

    ghost base: { js.Ground };
}

impl Lending for Brand {
    ghost use Rattle.std.specs.Prelude.{[]};
    ghost use Rattle.bp_pool.specs.Shared.{no_ground};

    ghost lent = { [] };

    ghost base = { no_ground };
}

/// The rule: each seat that was lent is in the queue or in one hand, once.
pub struct Once<L> {
    of: PhantomData<L>,
}

impl<L: Lending> Protocol<Seat, Hand> for Once<L> {
    ghost use Rattle.bp_pool.specs.Shared.{Shared, owner};

    ghost holds = { Shared L.base };

    ghost first = { owner L.lent };
}

/// How passes are split and joined.
pub struct Hands;

impl Split<Hand> for Hands {
    ghost use Rattle.std.specs.Prelude.{◌-◌, []};
    ghost use Rattle.bp_pool.specs.Shared.{hand};

    ghost left = { λ v. hand v.lent v.held (v.parts - 1) };

    ghost right = { λ v. hand v.lent [] 1 };
}

impl Join<Hand> for Hands {
    ghost use Rattle.std.specs.Prelude.{◌+◌, ◌++◌, []};
    ghost use Rattle.bp_pool.specs.Shared.{hand};

    ghost both = { λ v w. hand v.lent (v.held ++ w.held) (v.parts + w.parts) };

    ghost spent = { hand [] [] 0 };
}

/// A push: the first entry leaves the hand.
pub struct Gives;

impl Outcome<Seat, Hand> for Gives {
    ghost use Rattle.std.specs.Prelude.{◌≡◌};
    ghost use Rattle.bp_pool.specs.Shared.{hand, rest_of};

    ghost then = { λ v x w. w ≡ hand v.lent (rest_of v.held) v.parts };
}

impl Lesson<Seat, Hand> for Gives {
    ghost use Rattle.std.specs.Prelude.{◌<◌, length};

    ghost fact = { λ v items. length items < length v.lent };
}

/// A pop: the seat's entry comes to the hand.
pub struct Takes<L> {
    of: PhantomData<L>,
}

impl<L: Lending> Outcome<Seat, Hand> for Takes<L> {
    ghost use Rattle.std.specs.Prelude.{◌≡◌, ◌∷◌};
    ghost use Rattle.bp_pool.specs.Shared.{hand, Waits};

    ghost then = { λ v x w. (w ≡ hand v.lent (x.place ∷ v.held) v.parts) × Waits L.base v.lent x };
}

impl<L: Lending> Lesson<Seat, Hand> for Takes<L> {
    ghost use Rattle.std.specs.Prelude.{◌≡◌};
    ghost use Rattle.bp_pool.specs.Shared.{all_parts, Total};

    ghost fact = { λ v items. v.parts ≡ all_parts → Total v items };
}

/// The shared queue of the seats that `L` lends.
pub(crate) type Queue<L> = RuledArrayQueue<Seat, Hand, Once<L>>;
