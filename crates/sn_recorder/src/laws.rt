//! What records tell of the requests of a device, by the definitions alone. The functions call the laws below them and do
//! nothing else; their contracts are the laws.

ghost use Rattle.sn_recorder.specs.Fates.{AgainsHaveFates, ExchangesHaveFates};

use sn_account::rule_laws::{answers_fit, stays_sound};
use sn_http::{no_message_where_check, one_message, request_reads_back};
use sn_sync::answer_laws::one_answer;
use sn_sync::request_laws::{one_request, requests_not_refused};
use sn_sync::written_laws::{answers_read_back, requests_read_back};

/// Whatever is lost of an exchange at an open server: its request has a fate at the link's moment, and the record tells of just
/// what that changed.
pub fn exchanges_have_fates()
    ensures { ExchangesHaveFates }
{
    request_reads_back();
    one_message();
    no_message_where_check();
    requests_read_back();
    one_request();
    requests_not_refused();
    answers_read_back();
    one_answer();
    answers_fit();
    stays_sound();
}

/// So has a request that comes late or again, and the status of its answer is that of its fate.
pub fn agains_have_fates()
    ensures { AgainsHaveFates }
{
    request_reads_back();
    one_message();
    no_message_where_check();
    requests_read_back();
    one_request();
    requests_not_refused();
}
