//! What holds of every request, by the definitions alone. The functions do nothing; their contracts are
//! the laws.

ghost use Rattle.sn_sync.specs.Laws.{HasOneRequest, HasOneRequestRefusal, RefusesNoRequest};

/// A text says one request at most.
pub fn one_request()
    ensures { HasOneRequest }
{}

/// What is a request is refused only in want of memory.
pub fn requests_not_refused()
    ensures { RefusesNoRequest }
{}

/// A text that is no request is refused in one way, but for want of memory.
pub fn one_request_refusal()
    ensures { HasOneRequestRefusal }
{}
