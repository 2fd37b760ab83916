//! What a run ends in.
ghost use Rattle.std.specs.Prelude.{◌≡◌, ◌↔◌, true, IsTrue, IfOk};
ghost use Rattle.std.specs.Str.{is_utf8};
ghost use Rattle.bp_log.specs.Verdicts.{IsPlace, IsVerdict, kind_of, same_place as place_is_same, same_fault as fault_is_same, same_verdict as verdict_is_same};

use crate::Memory;
use js_data::{Fault, Text};

/// Where a line of the trace, a fault or a violation comes from.
#[derive(Debug, Drop)]
pub enum Place {
    /// The top level of the program.
    Top,
    /// The b-thread of this name.
    Thread(Text),
}

/// What a run ends in.
#[derive(Debug)]
pub enum Verdict {
    /// Nothing can be selected any more, after this many transitions.
    Quiet(u32),
    /// An assertion with this text didn't hold.
    Violated(Place, Text),
    /// A fault, with the number of its line.
    Fault(Place, u32, Fault),
    /// A budget was spent.
    Spent(Place),
    /// Something can be selected after this many transitions, the greatest number.
    Steps(u32),
    /// No further event fits the queue.
    Queue,
    /// No further b-thread can be registered.
    Threads,
    /// The next transition would pass the limit of the run's weight.
    Weight,
    /// This injector had a bad line, with its number.
    Bad(u32, u32),
}

/// The kinds of verdicts.
#[derive(Clone, Copy)]
pub enum VerdictKind {
    /// Nothing can be selected any more.
    Quiet,
    /// An assertion didn't hold.
    Violated,
    /// There was a fault.
    Fault,
    /// A budget was spent.
    Spent,
    /// A limit of runs was reached.
    Limit,
    /// An injector had a bad line.
    Bad,
}

impl Drop for Verdict {
    fn drop(self) {
        match self {
            Verdict::Quiet(_) => {}
            Verdict::Violated(_, _) => {}
            Verdict::Fault(_, _, _) => {}
            Verdict::Spent(_) => {}
            Verdict::Steps(_) => {}
            Verdict::Queue => {}
            Verdict::Threads => {}
            Verdict::Weight => {}
            Verdict::Bad(_, _) => {}
        }
    }
}

/// That the text is UTF-8, as a fact for its callers. Does nothing.
fn text_keeps(text: &Text)
    ensures { is_utf8 text.now ≡ true }
{
    let _bytes = text.as_str();
}

impl Place {
    /// That the name in it is UTF-8, as a fact for its callers. Does nothing.
    fn keeps(&self)
        ensures { IsPlace self.now }
    {
        match self {
            Place::Top => {}
            Place::Thread(name) => text_keeps(name),
        }
    }

    /// An equal place.
    pub fn copy(&self) -> Result<Place, Memory>
        ensures { IfOk result (λ p. p ≡ self.now) }
    {
        match self {
            Place::Top => Ok(Place::Top),
            Place::Thread(name) => Ok(Place::Thread(name.copy()?)),
        }
    }

    /// Whether the two are the same place.
    fn same(&self, other: &Place) -> bool
        ensures { result ≡ place_is_same self.now other.now }
    {
        match (self, other) {
            (Place::Top, Place::Top) => true,
            (Place::Thread(a), Place::Thread(b)) => a.same(b),
            _ => false,
        }
    }
}

/// Whether the two are the same fault: no two faults have one name.
fn same_fault(left: Fault, right: Fault) -> bool
    ensures { result ≡ fault_is_same left right }
{
    left.name() == right.name()
}

/// Whether the two are the same verdict.
fn same_verdict(left: &Verdict, right: &Verdict) -> bool
    ensures { result ≡ verdict_is_same left.now right.now }
{
    match (left, right) {
        (Verdict::Quiet(a), Verdict::Quiet(b)) => *a == *b,
        (Verdict::Violated(a, s), Verdict::Violated(b, t)) => a.same(b) && s.same(t),
        (Verdict::Fault(a, m, f), Verdict::Fault(b, n, g)) => {
            a.same(b) && *m == *n && same_fault(*f, *g)
        }
        (Verdict::Spent(a), Verdict::Spent(b)) => a.same(b),
        (Verdict::Steps(a), Verdict::Steps(b)) => *a == *b,
        (Verdict::Queue, Verdict::Queue) => true,
        (Verdict::Threads, Verdict::Threads) => true,
        (Verdict::Weight, Verdict::Weight) => true,
        (Verdict::Bad(a, m), Verdict::Bad(b, n)) => *a == *b && *m == *n,
        _ => false,
    }
}

impl Verdict {
    /// That the verdict's numbers are in their ranges and its texts UTF-8, as a fact for its callers. Does
    /// nothing.
    pub fn keeps(&self)
        ensures { IsVerdict self.now }
    {
        match self {
            Verdict::Quiet(transitions) => {
                let _transitions = *transitions;
            }
            Verdict::Violated(place, text) => {
                place.keeps();
                text_keeps(text);
            }
            Verdict::Fault(place, line, _) => {
                place.keeps();
                let _line = *line;
            }
            Verdict::Spent(place) => place.keeps(),
            Verdict::Steps(steps) => {
                let _steps = *steps;
            }
            Verdict::Queue | Verdict::Threads | Verdict::Weight => {}
            Verdict::Bad(injector, line) => {
                let _injector = *injector;
                let _line = *line;
            }
        }
    }

    /// The kind of the verdict.
    pub fn kind(&self) -> VerdictKind
        ensures { result ≡ kind_of self.now }
    {
        match self {
            Verdict::Quiet(_) => VerdictKind::Quiet,
            Verdict::Violated(_, _) => VerdictKind::Violated,
            Verdict::Fault(_, _, _) => VerdictKind::Fault,
            Verdict::Spent(_) => VerdictKind::Spent,
            Verdict::Steps(_) => VerdictKind::Limit,
            Verdict::Queue => VerdictKind::Limit,
            Verdict::Threads => VerdictKind::Limit,
            Verdict::Weight => VerdictKind::Limit,
            Verdict::Bad(_, _) => VerdictKind::Bad,
        }
    }

    /// An equal verdict.
    pub fn copy(&self) -> Result<Verdict, Memory>
        ensures { IfOk result (λ v. v ≡ self.now) }
    {
        match self {
            Verdict::Quiet(transitions) => Ok(Verdict::Quiet(*transitions)),
            Verdict::Violated(place, text) => Ok(Verdict::Violated(place.copy()?, text.copy()?)),
            Verdict::Fault(place, line, fault) => Ok(Verdict::Fault(place.copy()?, *line, *fault)),
            Verdict::Spent(place) => Ok(Verdict::Spent(place.copy()?)),
            Verdict::Steps(steps) => Ok(Verdict::Steps(*steps)),
            Verdict::Queue => Ok(Verdict::Queue),
            Verdict::Threads => Ok(Verdict::Threads),
            Verdict::Weight => Ok(Verdict::Weight),
            Verdict::Bad(injector, line) => Ok(Verdict::Bad(*injector, *line)),
        }
    }

    /// Whether the two are equal.
    pub fn same(&self, other: &Verdict) -> bool
        ensures same { result ≡ verdict_is_same self.now other.now }
        ensures equal { IsTrue result ↔ (self.now ≡ other.now) }
    {
        same_verdict(self, other)
    }
}
