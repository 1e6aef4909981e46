//! What holds of every request that is answered by the rule, by the definitions alone. The functions do
//! nothing; their contracts are the laws.

ghost use Rattle.sn_account.specs.RuleLaws.{AnswersFit, SparesEveryOther, StaysSound};

/// Sound rows are sound after any request.
pub fn stays_sound()
    ensures { StaysSound }
{}

/// A request leaves the rows of every account that it doesn't act for as they are.
pub fn spares_every_other()
    ensures { SparesEveryOther }
{}

/// What is answered is within the bounds of an answer, so that it is read back as it was written.
pub fn answers_fit()
    ensures { AnswersFit }
{}
