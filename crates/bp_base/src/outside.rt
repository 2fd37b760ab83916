//! What a source, a sink and a world are.
ghost use Rattle.std.specs.Prelude.{◌≡◌, ℕ, ◌<◌, ◌≤◌, List, [], length, take, Option, Some, IfOk, OnOk, OnErr, IsErrOf, IfSome};
ghost use Rattle.bp_base.specs.Counts.{Rose};
ghost use Rattle.bp_base.specs.Pieces.{Gives, Appends};
ghost use Rattle.bp_base.specs.Worlds.{Holdings, Opens, Asks, Keeps, IsMadeAs};

use std::alloc::{AllocError, AllocFailed};
use thiserror::Error;

/// Out of memory. Every call that takes memory may answer it, and it says nothing else.
pub type Memory = AllocError;

/// The outside failed.
#[derive(Clone, Copy, Debug, PartialEq, Eq, Error)]
#[error("the outside failed")]
pub struct Failed;

/// Bytes that come a piece at a time.
pub trait Source {
    /// The bytes still to come, if the source tells them.
    ghost left: { Self → Option (List ℕ) };

    /// How often it has failed.
    ghost faults: { Self → ℕ };

    /// Moves bytes from the front of what is left to the front of the buffer, and says how many. If none came
    /// into a buffer with room, none are left.
    fn read(&mut self, into: &mut [u8]) -> Result<usize, Failed>
        ensures within { IfOk result (λ n. n ≤ length into.old) }
        ensures given { IfOk result (λ n. Gives (left self.old) (take n into.new) (left self.new)) }
        ensures end { 0 < length into.old
            → IfOk result (λ n. n ≡ 0 → IfSome (left self.old) (λ bytes. bytes ≡ [])) }

        ensures failed { OnErr result (left self.new ≡ left self.old) }
        ensures cause { OnErr result (Rose (faults self.old) (faults self.new)) }
        ensures spares { OnOk result (faults self.new ≡ faults self.old) }
        ensures counts { faults self.old ≤ faults self.new };
}

/// A borrowed source.
impl<S: Source> Source for &mut S {
    ghost left = { λ s. S.left s.now };

    ghost faults = { λ s. S.faults s.now };

    fn read(&mut self, into: &mut [u8]) -> Result<usize, Failed> {
        Source::read(&mut **self, into)
    }
}

/// What takes bytes that are written.
pub trait Sink {
    /// All that was written, if the sink tells it.
    ghost written: { Self → Option (List ℕ) };

    /// How often it has failed.
    ghost faults: { Self → ℕ };

    /// The name under which a world made it, if it tells it. No write changes it.
    ghost made_as: { Self → Option (List ℕ) };

    /// Appends bytes from the front of the piece, and says how many: at least one, unless the piece is empty.
    fn write(&mut self, bytes: &[u8]) -> Result<usize, Failed>
        ensures within { IfOk result (λ n. n ≤ length bytes.now) }
        ensures some { 0 < length bytes.now → IfOk result (λ n. 0 < n) }
        ensures empty { length bytes.now ≡ 0 → result ≡ Ok 0 }
        ensures appended { IfOk result
            (λ n. Appends (written self.old) (take n bytes.now) (written self.new)) }

        ensures failed { OnErr result (written self.new ≡ written self.old) }
        ensures cause { OnErr result (Rose (faults self.old) (faults self.new)) }
        ensures counts { faults self.old ≤ faults self.new }
        ensures named { made_as self.new ≡ made_as self.old };
}

/// Why nothing was opened.
#[derive(Clone, Copy, Debug, PartialEq, Eq, Error)]
pub enum WorldError {
    /// Nothing has that name, or the world failed.
    #[error("the outside failed")]
    Failed,
    /// No memory was left.
    #[error("no memory was left")]
    Memory,
}

impl From<AllocError> for WorldError {
    ghost use Rattle.std.specs.Prelude.{◌≡◌};
    ghost use Rattle.bp_base.specs.declared.outside.WorldError.TheVariants.{Memory};

    ghost from_gives = { λ _ e. e ≡ Memory };

    fn from(_: AllocError) -> WorldError {
        WorldError::Memory
    }
}

impl<T: Drop> From<AllocFailed<T>> for WorldError {
    ghost use Rattle.std.specs.Prelude.{◌≡◌};
    ghost use Rattle.bp_base.specs.declared.outside.WorldError.TheVariants.{Memory};

    ghost from_gives = { λ _ e. e ≡ Memory };

    fn from(_: AllocFailed<T>) -> WorldError {
        WorldError::Memory
    }
}

/// Bytes under names.
pub trait World {
    /// What `open` answers. It may move to another thread, which may drop it.
    type Input: Source + Send + Drop;

    /// What `create` answers. It may move to another thread, which may drop it.
    type Output: Sink + Send + Drop;

    /// The bytes under each name, if the world tells them.
    ghost holds: { Self → Option Holdings };

    /// The names that were asked for, in order, if the world tells them.
    ghost asked: { Self → Option (List (List ℕ)) };

    /// How often reading has failed.
    ghost read_faults: { Self → ℕ };

    /// How often writing has failed.
    ghost write_faults: { Self → ℕ };

    /// Opens what is held under the name. `Failed` means that nothing is, or that the world failed.
    fn open(&mut self, name: &str) -> Result<Self::Input, WorldError>
        ensures content { IfOk result
            (λ input. Opens (holds self.old) name.now (Self.Input.left input)) }
        ensures fresh { IfOk result (λ input. Self.Input.faults input ≡ 0) }

        ensures cause { IsErrOf result WorldError.Failed →
            Rose (read_faults self.old) (read_faults self.new) }
        ensures counts { read_faults self.old ≤ read_faults self.new }

        ensures asks { OnOk result (Asks (asked self.old) name.now (asked self.new)) }
        ensures asks_failed { IsErrOf result WorldError.Failed
            → Asks (asked self.old) name.now (asked self.new) }
        ensures asks_nothing { IsErrOf result WorldError.Memory → asked self.new ≡ asked self.old }
        ensures keeps { holds self.new ≡ holds self.old }
        ensures writes { write_faults self.new ≡ write_faults self.old };

    /// Makes an empty output of this name. It is held under the name once it is closed.
    fn create(&mut self, name: &str) -> Result<Self::Output, WorldError>
        ensures empty { IfOk result
            (λ output. IfSome (holds self.old) (λ _. Self.Output.written output ≡ Some [])) }
        ensures fresh { IfOk result (λ output. Self.Output.faults output ≡ 0) }
        ensures made { IfOk result (λ output. IsMadeAs (Self.Output.made_as output) name.now) }

        ensures cause { IsErrOf result WorldError.Failed →
            Rose (write_faults self.old) (write_faults self.new) }
        ensures counts { write_faults self.old ≤ write_faults self.new }

        ensures asks { OnOk result (Asks (asked self.old) name.now (asked self.new)) }
        ensures asks_failed { IsErrOf result WorldError.Failed
            → Asks (asked self.old) name.now (asked self.new) }
        ensures asks_nothing { IsErrOf result WorldError.Memory → asked self.new ≡ asked self.old }
        ensures keeps { holds self.new ≡ holds self.old }
        ensures reads { read_faults self.new ≡ read_faults self.old };

    /// Closes an input. If it has failed, the world's count rises.
    fn close_input(&mut self, input: Self::Input)
        ensures risen { 0 < Self.Input.faults input →
            Rose (read_faults self.old) (read_faults self.new) }
        ensures clean { Self.Input.faults input ≡ 0 → read_faults self.new ≡ read_faults self.old }
        ensures counts { read_faults self.old ≤ read_faults self.new }
        ensures asked { asked self.new ≡ asked self.old }
        ensures keeps { holds self.new ≡ holds self.old }
        ensures writes { write_faults self.new ≡ write_faults self.old };

    /// Closes an output under the name with which it was created: from now on the world holds all that was
    /// written under it. If the output has failed, the world's count rises.
    fn close_output(&mut self, name: &str, output: Self::Output)
        requires { IsMadeAs (Self.Output.made_as output) name.now }
        ensures sets { Keeps (holds self.old) name.now (Self.Output.written output) (holds self.new) }
        ensures risen { 0 < Self.Output.faults output →
            Rose (write_faults self.old) (write_faults self.new) }
        ensures clean { Self.Output.faults output ≡ 0 → write_faults self.new ≡ write_faults self.old }
        ensures counts { write_faults self.old ≤ write_faults self.new }
        ensures asked { asked self.new ≡ asked self.old }
        ensures reads { read_faults self.new ≡ read_faults self.old };
}
