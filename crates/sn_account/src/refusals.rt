//! Refusals.

ghost use Rattle.std.specs.Prelude.{◌≡◌};
ghost use Rattle.sn_sync.specs.declared.answer.Answer.TheVariants.{Refused};

use sn_string::Text;
use sn_sync::{Answer, More};

/// The answer that refuses a request. Takes no memory.
pub(crate) fn refused(status: u16, tag: &'static str, more: More) -> Answer
    ensures { result ≡ Refused status tag.now more }
{
    Answer::Refused {
        status,
        tag: Text::fixed(tag),
        more,
    }
}
