//! What is written is read back, by the definitions alone. The functions do nothing; their contracts
//! are the laws.

ghost use Rattle.sn_sync.specs.Laws.{AnswersReadAgain, AnswersReadBack, RequestsReadAgain, RequestsReadBack};

/// The text of a request that is within its bounds says that request.
pub fn requests_read_back()
    ensures { RequestsReadBack }
{}

/// The text of an answer that is within its bounds says that answer.
pub fn answers_read_back()
    ensures { AnswersReadBack }
{}

/// What is written for a request that was read says it again.
pub fn requests_read_again()
    ensures { RequestsReadAgain }
{}

/// What is written for an answer that was read says it again.
pub fn answers_read_again()
    ensures { AnswersReadAgain }
{}
