//! What is said of a bad log.
ghost use Rattle.std.specs.Prelude.{◌≡◌, IfOk, string_bytes};
ghost use Rattle.bp_replay.specs.Notes.{bad_log_note, detail_of, log_detail};

use crate::ReplayFault;
use crate::texts::differing;
use bp_log::Memory;
use bp_reader::LogFault;
use js_data::Text;
use std::alloc::Global;

/// Why bytes are not a log.
fn log_detail(alloc: Global, fault: LogFault) -> Result<String, Memory>
    ensures { IfOk result (λ s. string_bytes s ≡ log_detail fault) }
{
    match fault {
        LogFault::Version => "version".to_string(alloc),
        LogFault::Header => "header".to_string(alloc),
        LogFault::Line(number) => format!(in alloc; "line {number}"),
        LogFault::Cut => "cut".to_string(alloc),
        LogFault::Read => "read fault".to_string(alloc),
        LogFault::Memory => "memory".to_string(alloc),
    }
}

/// Why a log is bad.
fn detail(alloc: Global, fault: &ReplayFault) -> Result<String, Memory>
    ensures { IfOk result (λ s. string_bytes s ≡ detail_of fault.now) }
{
    match fault {
        ReplayFault::Log(fault) => log_detail(alloc, *fault),
        ReplayFault::Differs {
            number,
            expected,
            found,
        } => differing(alloc, *number, expected, found),
        ReplayFault::Program => "program".to_string(alloc),
        ReplayFault::Write => "write fault".to_string(alloc),
        ReplayFault::Memory => "memory".to_string(alloc),
    }
}

/// The note of a bad log.
pub fn bad_log_note(alloc: Global, fault: &ReplayFault) -> Result<Text, Memory>
    ensures { IfOk result (λ t. t ≡ bad_log_note fault.now) }
{
    let detail = detail(alloc, fault)?;
    let detail = detail.as_str();
    Ok(Text::new(format!(in alloc; "bad log: {detail}")?))
}
