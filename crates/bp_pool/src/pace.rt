//! How the jobs of a super-step are shared out.

/// How many workers there are, and how many nodes a slice begins.
#[derive(Clone, Copy)]
pub struct Pace {
    /// From 1 to 64.
    pub workers: u32,
    /// At least 1.
    pub slice: u64,
}
