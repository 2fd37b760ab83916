//! What stands at the head of a log.
ghost use Rattle.std.specs.Prelude.{◌≡◌, ◌≤◌, SomeIff, length};
ghost use Rattle.bp_log.specs.Header.{PlainHeader};

use crate::Options;
use crate::limits::MOST_BYTES;
use std::marker::Model;

/// The options of a run, and the bytes of its program.
///
/// Its type keeps that the program has at most 1,048,576 bytes.
#[derive(Drop)]
pub struct Header {
    options: Options,
    program: Vec<u8>,
}

impl Model for Header {
    ghost use Rattle.std.specs.Prelude.{◌≤◌, length};
    ghost use Rattle.bp_log.specs.Header.{PlainHeader};
    ghost use Rattle.bp_log.specs.declared.limits.TheConstants.{MOST_BYTES};

    ghost Value = { PlainHeader };

    ghost view = { λ h. record { options = h.options; program = h.program.items } };

    ghost invariant = { λ h. length h.program.items ≤ MOST_BYTES };
}

impl Header {
    /// The header of these options and this program, or `None` exactly where the program has more
    /// than 1,048,576 bytes.
    pub fn new(options: Options, program: Vec<u8>) -> Option<Header>
        ensures { SomeIff result (length program.items ≤ MOST_BYTES)
            (record { options = options; program = program.items }) }
    {
        if program.len() > MOST_BYTES as usize {
            return None;
        }
        Some(Header { options, program })
    }

    /// The options.
    pub fn options(&self) -> Options
        ensures { result ≡ self.now.options }
    {
        self.options
    }

    /// The bytes of the program.
    pub fn program(&self) -> &[u8]
        ensures program { result.now ≡ self.now.program }
        ensures within { length self.now.program ≤ MOST_BYTES }
    {
        self.program.as_slice()
    }
}
