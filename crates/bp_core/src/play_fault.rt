//! Why a list of steps was not played to its end.
use bp_steps::CoreStep;
use thiserror::Error;

/// Why a list of steps was not played to its end. The steps before this place, counted from 0, were
/// made.
#[derive(Debug, Drop, Error)]
pub enum PlayFault {
    /// The step at this place is not legal there; it left nothing.
    #[error("the step at {at} is not legal")]
    Illegal { at: u32, step: CoreStep },
    /// Memory ran out at this place.
    #[error("no memory was left at the step at {at}")]
    Memory { at: u32 },
}
