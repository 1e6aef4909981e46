//! The tokens that a sync comes with.

ghost use Rattle.std.specs.Prelude.{◌≡◌, IfErr, IfOk};
ghost use Rattle.sn_account.specs.Syncs.{IsBadToken, IsStampOf, above_of, is_first};

use sn_string::Text;
use sn_sync::{BadForm, token_read};

/// The stamp of a token, which may be left out. Takes no memory.
pub(crate) fn stamp_of(token: &Option<Text>) -> Result<Option<u64>, BadForm>
    ensures ok { IfOk result (IsStampOf token.now) }
    ensures err { IfErr result (λ e. IsBadToken token.now) }
{
    let Some(text) = token else {
        return Ok(None);
    };
    let stamp = token_read(text.as_str())?;
    Ok(Some(stamp))
}

/// The stamp above which a page begins: the cursor's, else that of the sync token, else 0.
pub(crate) fn above(sync: Option<u64>, cursor: Option<u64>) -> u64
    ensures { result ≡ above_of sync cursor }
{
    cursor.or(sync).unwrap_or(0)
}

/// Whether a page is the first, since both tokens were left out.
pub(crate) fn is_first(sync: Option<u64>, cursor: Option<u64>) -> bool
    ensures { result ≡ is_first sync cursor }
{
    sync.is_none() && cursor.is_none()
}
