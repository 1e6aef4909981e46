//! The labels that an event's moves make, and the items that lines name by theirs.

ghost use Rattle.std.specs.Prelude.{◌≡◌, OnOk};
ghost use Rattle.sn_course.specs.Lines.{labelled_item};
ghost use Rattle.sn_report.specs.Labels.{labels_of};

use sn_laws::Move;
use sn_report::{Labels, make_label};
use sn_script::Ordinal;
use std::alloc::AllocError;
use uuid::Uuid;

/// Makes the labels of an event's moves.
pub(crate) fn add_labels(labels: &mut Labels, puts: bool, moves: &[Move]) -> Result<(), AllocError>
    ensures { OnOk result (labels.new ≡ labels_of puts labels.old moves.now) }
{
    'moves: for made in moves {
        make_label(labels, puts, made)?;
    }
    Ok(())
}

/// The item of a label.
pub(crate) fn labelled_item(labels: &Labels, label: Ordinal) -> Option<Uuid>
    ensures { result ≡ labelled_item labels.now label }
{
    match label {
        Ordinal::Nth(number) => labels.item(number),
        Ordinal::Beyond => None,
    }
}
