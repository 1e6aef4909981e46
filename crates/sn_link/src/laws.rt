//! What exchanges over a link do to its server, by the definitions alone. The functions call the laws below them and do nothing
//! else; their contracts are the laws.

ghost use Rattle.sn_link.specs.Laws.{AgainServes, LinkServes, ReadableWithin, ServedUnlessWanting};

use sn_account::rule_laws::{answers_fit, stays_sound};
use sn_http::{no_message_where_check, one_message, request_reads_back};
use sn_sync::answer_laws::one_answer;
use sn_sync::request_laws::{one_request, requests_not_refused};
use sn_sync::written_laws::{answers_read_back, requests_read_back};

/// A request within plain bounds is readable.
pub fn readable_within()
    ensures { ReadableWithin }
{}

/// Whatever a device asks over the link, and whatever is lost: each request has a fate, and the server's rows are those that the
/// fates leave.
pub fn link_serves()
    ensures { LinkServes }
{
    request_reads_back();
    one_message();
    no_message_where_check();
    requests_read_back();
    one_request();
    requests_not_refused();
    answers_read_back();
    one_answer();
    answers_fit();
    stays_sound();
}

/// Where no device heard that memory was wanting at the server, the fates are the world's.
pub fn served_unless_wanting()
    ensures { ServedUnlessWanting }
{}

/// A request that is delivered late or again has a fate too.
pub fn again_serves()
    ensures { AgainServes }
{
    request_reads_back();
    one_message();
    no_message_where_check();
    requests_read_back();
    one_request();
    requests_not_refused();
}
