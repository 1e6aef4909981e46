//! Members, written into a message's JSON.

ghost use Rattle.std.specs.Prelude.{OnOk};
ghost use Rattle.serde_json.specs.Data.{null, string};
ghost use Rattle.sn_sync.specs.Appended.{AppendsMember};
ghost use Rattle.sn_sync.specs.Written.{optional_data};

use json::Writer;
use sn_string::Text;
use std::alloc::AllocError;

/// A text under this name.
pub(crate) fn text_member(out: &mut Writer, name: &str, text: &Text) -> Result<(), AllocError>
    ensures { OnOk result (AppendsMember out.old out.new name.now (string text.now)) }
{
    out.key(name)?;
    out.string(text.as_str())
}

/// Null under this name.
pub(crate) fn null_member(out: &mut Writer, name: &str) -> Result<(), AllocError>
    ensures { OnOk result (AppendsMember out.old out.new name.now null) }
{
    out.key(name)?;
    out.null()
}

/// A text under this name, or null.
pub(crate) fn optional_member(
    out: &mut Writer,
    name: &str,
    text: &Option<Text>,
) -> Result<(), AllocError>
    ensures { OnOk result (AppendsMember out.old out.new name.now (optional_data text.now)) }
{
    match text {
        Some(text) => text_member(out, name, text),
        None => null_member(out, name),
    }
}
