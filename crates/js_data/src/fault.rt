//! The faults of a running script.
ghost use Rattle.std.specs.Prelude.{◌≡◌};
ghost use Rattle.js_data.specs.Faults.{fault_name};

/// What can go wrong while a script runs.
#[derive(Debug, Clone, Copy)]
pub enum Fault {
    /// A whole number outside of -(2^53-1) to 2^53-1.
    Whole,
    /// A quotient that is not a whole number.
    Fraction,
    /// A divisor 0.
    Zero,
    /// A value of the wrong kind.
    Mistyped,
    /// A variable that is used before its declaration ran.
    Early,
    /// A place outside of a list.
    Index,
    /// A value that weighs too much.
    Weight,
    /// A value that is nested too deep.
    Nesting,
    /// Too many active calls.
    Depth,
    /// A form that may not stand in this mode.
    Mode,
    /// A synchronization statement that is none.
    Statement,
    /// A predicate's answer that is not a truth value.
    Truth,
}

impl Fault {
    /// The name under which the fault is printed.
    pub fn name(self) -> &'static str
        ensures { result.now ≡ fault_name self }
    {
        match self {
            Fault::Whole => "whole",
            Fault::Fraction => "fraction",
            Fault::Zero => "zero",
            Fault::Mistyped => "type",
            Fault::Early => "early",
            Fault::Index => "index",
            Fault::Weight => "weight",
            Fault::Nesting => "nesting",
            Fault::Depth => "depth",
            Fault::Mode => "mode",
            Fault::Statement => "statement",
            Fault::Truth => "truth",
        }
    }
}
