//! How a statement's last part ends, which decides what may follow on the next line.

/// What an expression, or a statement without one, ends in.
#[derive(Clone, Copy)]
pub enum Ending {
    /// A value that `(`, `[`, `+` or `-` go on with.
    Value,
    /// `++` or `--`, which `+` or `-` go on with.
    Update,
    /// The block of an arrow function, or no expression at all, which none of the four goes on with.
    Closed,
}
