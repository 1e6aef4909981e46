//! Summaries of reports.

ghost use Rattle.std.specs.Prelude.{◌≡◌, ◌++◌, IfOk, OnOk, string_bytes};
ghost use Rattle.sn_summary.specs.Summaries.{IsSummaryOf, moves_in, number_line, summary_text};
ghost use Rattle.sn_laws.specs.Runs.{Legal};

use crate::walk::Walk;
use sn_report::Report;
use sn_string::Text;
use std::alloc::{AllocError, Global};
use std::fmt::Write;

/// What a report comes to.
#[derive(Clone, Copy, Debug, PartialEq, Eq)]
pub struct Summary {
    /// How many events it has.
    pub events: u64,
    /// How many items on the server aren't deleted, behind all events.
    pub items: u64,
    /// How many versions of items were made.
    pub versions: u64,
    /// How many drafts were forked.
    pub forks: u64,
    /// How many drafts are left on devices, behind all events.
    pub drafts: u64,
}

/// The summary of a report, where its moves are legal; of other moves there is none to be told. Takes
/// time in the order of the moves, times the logarithm of how many items and drafts there are.
pub fn summary_of(alloc: Global, report: &Report) -> Result<Summary, AllocError>
    ensures { Legal (moves_in report.now.events) → IfOk result (IsSummaryOf report.now) }
{
    let events = report.events.as_slice();
    let mut walk = Walk::new(alloc);
    'events: for event in events {
        walk.add_moves(event.moves.as_slice())?;
    }
    Ok(Summary {
        events: events.len() as u64,
        items: walk.live.len() as u64,
        versions: walk.versions,
        forks: walk.forks,
        drafts: walk.drafts.len() as u64,
    })
}

fn push_number(text: &mut String, word: &str, number: u64) -> Result<(), AllocError>
    ensures { OnOk result (string_bytes text.new ≡ string_bytes text.old ++ number_line word.now number) }
{
    write!(text, "{word} {number}\n")
}

/// The lines of a summary: a word, a blank and a number each.
pub fn summary_text(alloc: Global, summary: &Summary) -> Result<Text, AllocError>
    ensures { IfOk result (λ text. text ≡ summary_text summary.now) }
{
    let mut text = String::new(alloc);
    push_number(&mut text, "events", summary.events)?;
    push_number(&mut text, "items", summary.items)?;
    push_number(&mut text, "versions", summary.versions)?;
    push_number(&mut text, "forks", summary.forks)?;
    push_number(&mut text, "drafts", summary.drafts)?;
    Ok(Text::of_string(text))
}
