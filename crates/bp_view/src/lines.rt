//! The line of a summary.
ghost use Rattle.std.specs.Prelude.{◌≡◌, ◌++◌, codes, decimal, IfOk, string_bytes};
ghost use Rattle.bp_view.specs.Lines.{summary_line, over_text};

use crate::summary::Summary;
use bp_base::Memory;
use std::alloc::Global;

/// What the line says of whether the run is over.
fn over_text(over: bool) -> &'static str
    ensures { result.now ≡ over_text over }
{
    if over { " over" } else { "" }
}

/// The end of the line, from how many events wait.
fn line_end(alloc: Global, queue: u32, over: bool) -> Result<String, Memory>
    ensures { IfOk result (λ s. string_bytes s ≡ decimal queue ++ (over_text over ++ codes "\n")) }
{
    let over = over_text(over);
    format!(in alloc; "{queue}{over}\n")
}

/// The line of a summary.
#[tactic(auto, unfolding(crate::specs::Lines::summary_line))]
pub(crate) fn summary_line(alloc: Global, summary: &Summary) -> Result<String, Memory>
    ensures { IfOk result (λ s. string_bytes s ≡ summary_line summary.now) }
{
    let end = line_end(alloc, summary.queue, summary.over)?;
    let end = end.as_str();
    let records = summary.records;
    let steps = summary.steps;
    let live = summary.live;
    format!(in alloc; "view records {records} steps {steps} live {live} queue {end}")
}
