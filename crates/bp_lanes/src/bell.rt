//! A bell that wakes who waits, and ropes by which threads ring it and listen to it.
use std::sync::{Condvar, Mutex, Wait};
use std::thread::Threads;

/// How often a bell was rung, and whether it was halted.
#[derive(Drop)]
struct Rings {
    count: u64,
    halted: bool,
}

/// A bell. It counts its rings, and keeps no state of a run. No clause says what a call finds or
/// leaves in it, since other threads may call at any time and a lock tells nothing of what it
/// guards: so whoever waits looks again himself.
#[derive(Drop)]
pub struct Bell {
    rings: Mutex<Rings>,
    rung: Condvar,
}

impl Bell {
    /// A bell that was not rung.
    pub fn new() -> Bell {
        Bell {
            rings: Mutex::new(Rings {
                count: 0,
                halted: false,
            }),
            rung: Condvar::new(),
        }
    }

    /// Rings: the counter rises by one, after the greatest u64 to 0, and all who wait look again.
    pub fn ring<R: Threads + Wait + Sync>(&self, rt: &R) {
        let mut rings = self.rings.lock(rt);
        rings.count = rings.count.wrapping_add(1);
        self.rung.notify_all();
    }

    /// Waits until the counter differs from `seen` or the bell was halted, and answers the counter.
    pub fn wait<R: Threads + Wait + Sync>(&self, rt: &R, seen: u64) -> u64 {
        let rings = self.rung.wait_while(rt, self.rings.lock(rt), |r| {
            r.count == seen && !r.halted
        });
        rings.count
    }

    /// Halts: from now on nobody waits.
    pub fn halt<R: Threads + Wait + Sync>(&self, rt: &R) {
        let mut rings = self.rings.lock(rt);
        rings.halted = true;
        self.rung.notify_all();
    }

    /// Whether the bell was halted.
    pub fn halted<R: Threads + Wait + Sync>(&self, rt: &R) -> bool {
        self.rings.lock(rt).halted
    }
}

/// What wakes a thread that waits, and halts it. Its clauses tell of its own count alone, and of
/// what others see tests alone tell.
pub trait Wake {
    ghost use Rattle.std.specs.Prelude.{ℕ, ◌≡◌, ◌≤◌, ◌<◌, IsTrue};
    ghost use Rattle.bp_base.specs.Counts.{Rose};
    ghost use denote.Param.Send.{IsSync};

    /// How often it was found halted.
    ghost halts: { Self → ℕ };

    /// How often it ordered a halt.
    ghost orders: { Self → ℕ };

    /// Wakes who waits.
    fn ring<R: Threads + Wait + Sync>(&mut self, rt: &R)
        requires { IsSync R.row }
        ensures found { halts self.new ≡ halts self.old }
        ensures ordered { orders self.new ≡ orders self.old };

    /// Waits for the next ring that was not yet seen, or a halt.
    fn wait<R: Threads + Wait + Sync>(&mut self, rt: &R)
        requires { IsSync R.row }
        ensures found { halts self.new ≡ halts self.old }
        ensures ordered { orders self.new ≡ orders self.old };

    /// Halts all who listen.
    fn halt<R: Threads + Wait + Sync>(&mut self, rt: &R)
        requires { IsSync R.row }
        ensures found { halts self.new ≡ halts self.old }
        ensures ordered { Rose (orders self.old) (orders self.new) };

    /// Whether there was a halt. True only where the count of `halts` rose, and always once it was
    /// true.
    fn halted<R: Threads + Wait + Sync>(&mut self, rt: &R) -> bool
        requires { IsSync R.row }
        ensures counts { halts self.old ≤ halts self.new }
        ensures cause { IsTrue result → Rose (halts self.old) (halts self.new) }
        ensures stays { 0 < halts self.old → IsTrue result }
        ensures ordered { orders self.new ≡ orders self.old };
}

/// A rope of a bell. It keeps the counter that was last seen, how often the bell was found halted,
/// and how often it was halted by this rope.
#[derive(Drop)]
pub struct Rope<'a> {
    bell: &'a Bell,
    seen: u64,
    halts: u64,
    orders: u64,
}

impl<'a> Rope<'a> {
    ghost use Rattle.std.specs.Prelude.{◌≡◌};

    /// A rope of this bell, which has seen no ring and no halt.
    pub fn new(bell: &'a Bell) -> Rope<'a>
        ensures { (result.halts ≡ 0) × (result.orders ≡ 0) }
    {
        Rope {
            bell,
            seen: 0,
            halts: 0,
            orders: 0,
        }
    }
}

impl<'a> Wake for Rope<'a> {
    ghost halts = { λ r. r.halts };

    ghost orders = { λ r. r.orders };

    fn ring<R: Threads + Wait + Sync>(&mut self, rt: &R) {
        self.bell.ring(rt);
    }

    fn wait<R: Threads + Wait + Sync>(&mut self, rt: &R) {
        self.seen = self.bell.wait(rt, self.seen);
    }

    fn halt<R: Threads + Wait + Sync>(&mut self, rt: &R) {
        self.bell.halt(rt);
        self.orders = self.orders.saturating_add(1);
    }

    fn halted<R: Threads + Wait + Sync>(&mut self, rt: &R) -> bool {
        let halted = self.halts > 0 || self.bell.halted(rt);
        if halted {
            self.halts = self.halts.saturating_add(1);
        }
        halted
    }
}
