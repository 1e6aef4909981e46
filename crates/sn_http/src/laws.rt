//! What holds of every input. The functions do nothing; their contracts are the laws.
ghost use Rattle.sn_http.specs.Laws.{OneMessage, NoMessageWhereCheck, OneStatus, RequestReadsBack, AnswerReadsBack};

/// An input has one first message.
pub fn one_message()
    ensures { OneMessage }
{}

/// .. and no check of it fails.
pub fn no_message_where_check()
    ensures { NoMessageWhereCheck }
{}

/// An input has one first check that fails.
pub fn one_status()
    ensures { OneStatus }
{}

/// A request that `write_request` writes, of parts in form, is the message of these parts.
pub fn request_reads_back()
    ensures { RequestReadsBack }
{}

/// An answer that `write_answer` writes, of a status of three digits, is the one answer of its status and body.
pub fn answer_reads_back()
    ensures { AnswerReadsBack }
{}
