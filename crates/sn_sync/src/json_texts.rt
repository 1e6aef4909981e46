//! The JSON text of a message.

ghost use Rattle.std.specs.Prelude.{◌≡◌, ◌≤◌, [], false, string_bytes, IfOk};
ghost use Rattle.json.specs.Tree.{json_tokens};
ghost use Rattle.serde_json.specs.Data.{Data, depth};
ghost use Rattle.serde_json.specs.View.{view};
ghost use Rattle.serde_json.specs.Written.{has_float, outline};
ghost use Rattle.sn_sync.specs.Appended.{IsReadable};
ghost use Rattle.sn_sync.specs.Written.{IsJsonOf};

use json::Writer;
use serde_json::Value;
use std::alloc::{AllocError, Global};

/// The compact JSON of a value, which reads as it.
pub(crate) fn json_text(alloc: Global, value: &Value) -> Result<String, AllocError>
    requires whole { has_float (view value.now) ≡ false }
    requires shallow { depth (view value.now) ≤ 127 }
    ensures { IfOk result (λ text. IsJsonOf (view value.now) (string_bytes text)) }
{
    value.to_string(alloc)
}

/// The compact JSON that was written, which reads as the value whose tokens it is. Takes no memory.
pub(crate) fn written_text(out: Writer) -> String
    requires { out.before ≡ [] }
    ensures { (d : Data) → IsReadable d → out.tokens ≡ json_tokens (outline d)
        → IsJsonOf d (string_bytes result) }
{
    // What a writer wrote is UTF-8.
    unsafe { String::from_utf8_unchecked(out.into_inner()) }
}
