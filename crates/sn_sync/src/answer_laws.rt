//! What holds of every answer, by the definitions alone. The functions do nothing; their contracts are
//! the laws.

ghost use Rattle.sn_sync.specs.Laws.{HasOneAnswer, HasOneAnswerRefusal, RefusesNoAnswer};

/// A text says one answer at most.
pub fn one_answer()
    ensures { HasOneAnswer }
{}

/// An answer is refused only in want of memory.
pub fn answers_not_refused()
    ensures { RefusesNoAnswer }
{}

/// A text that is no answer is refused in one way, but for want of memory.
pub fn one_answer_refusal()
    ensures { HasOneAnswerRefusal }
{}
