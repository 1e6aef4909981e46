//! What holds of every answer by the rule, by the definitions alone. The functions do nothing; their
//! contracts are the laws.

ghost use Rattle.sn_account.specs.AccountTells.{ChangesTell, ParametersTell, RegistersTell, SignInsTell};
ghost use Rattle.sn_account.specs.AnswerSize.{AnswersAreShort, SealedAreUnescaped, StampsAreShort};
ghost use Rattle.sn_account.specs.RuleBatch.{BatchesFit};
ghost use Rattle.sn_account.specs.RuleTotal.{EachIsAnswered};
ghost use Rattle.sn_account.specs.RuleUnique.{IsAnsweredOnce};
ghost use Rattle.sn_account.specs.Tells.{SyncsTell};

/// Each request within its bounds has an answer, of sound rows at any time.
pub fn each_is_answered()
    ensures { EachIsAnswered }
{}

/// Of sound rows, a request and a time, answer and changes are one.
pub fn one_answer()
    ensures { IsAnsweredOnce }
{}

/// What a request changes is a batch of a server's rows, of at most 2^30 bytes as it is spelled.
pub fn batches_fit()
    ensures { BatchesFit }
{}

/// What an answer to a sync, whose items have different uuids, tells a device of the rows that it leaves.
pub fn syncs_tell()
    ensures { SyncsTell }
{}

/// What an answer about an account tells of the rows that it leaves: whose the uuid and the token are, and
/// which identifier, check value, generation and parameters that account has.
pub fn accounts_tell()
    ensures registers { RegistersTell }
    ensures parameters { ParametersTell }
    ensures sign_ins { SignInsTell }
    ensures changes { ChangesTell }
{}

/// JSON has each byte of a 003 string as it is.
pub fn sealed_are_unescaped()
    ensures { SealedAreUnescaped }
{}

/// The text of a stamp has 27 bytes.
pub fn stamps_are_short()
    ensures { StampsAreShort }
{}

/// The answer to a sync of at most 150 items, each of which names no version or one of at most 255 bytes,
/// and whose strings have at most 4 MiB and stand in JSON as they are, has a text of at most 32 MiB.
pub fn answers_are_short()
    ensures { AnswersAreShort }
{}
