//! Which comes first, a commit or a request.

ghost use Rattle.std.specs.Prelude.{◌≡◌};
ghost use Rattle.sn_order.specs.Order.{comes_first, is_sync};

use crate::kind::Kind;
use sn_sync::Request;

/// Whether the request is a sync.
pub fn is_sync(request: &Request) -> bool
    ensures { result ≡ is_sync request.now }
{
    matches!(request, Request::Sync { .. })
}

/// Of the next commit of a call and its next request, which is a sync or not, whether the commit comes first; `heard` says
/// whether the act before them was a sync.
pub fn comes_first(heard: bool, kind: Kind, syncs: bool) -> bool
    ensures { result ≡ comes_first heard kind syncs }
{
    match kind {
        Kind::Counts => heard,
        Kind::Asks => true,
        Kind::Joins | Kind::Forgets | Kind::Drafts => syncs,
    }
}
