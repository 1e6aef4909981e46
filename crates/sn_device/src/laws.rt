// What holds of all devices, by the definitions alone. The functions do nothing; their contracts are the laws.
ghost use Rattle.sn_device.specs.Laws.{DraftAdopted, DraftKept, DraftKeptByAnswer, DraftKeptByPasswd, DraftKeptBySignIn, DraftKeptBySync, DraftStays, FreshIsSound, RunsBySteps, RunsStaySound, RunsStaySoundDevice, StayStanding, StayWell, StepsStaySound, StepsStaySoundDevice, TellsSoundness};

/// No kind of rows is told just of sound rows.
pub fn tells_soundness()
    ensures { TellsSoundness }
{}

/// A fresh device is sound.
pub fn fresh_is_sound()
    ensures { FreshIsSound }
{}

/// A draft stays as it is but for the user's own call of its item, for an answer that tells of it, and for
/// the adoption of a set.
pub fn draft_stays()
    ensures { DraftStays }
{}

/// At the adoption of a set a draft stays in its row, with its content: where it opens it is sealed again
/// under the new set.
pub fn draft_adopted()
    ensures { DraftAdopted }
{}

/// Whatever a server answers, no draft is lost but a deletion: where one version of an answer ends a
/// draft, it has the draft's content, or the draft goes on as a copy or under another uuid.
pub fn draft_kept()
    ensures { DraftKept }
{}

/// Each commit of a call is a step on the rows that the commits before it have left.
pub fn runs_by_steps()
    ensures { RunsBySteps }
{}

/// Whatever a server answers, one version of an answer leaves items sound, with uuids and numbers that
/// differ, and with drafts that open.
pub fn stay_well()
    ensures { StayWell }
{}

/// It leaves items sound, with uuids and numbers that differ, where nothing is known of their drafts.
pub fn stay_standing()
    ensures { StayStanding }
{}

/// Each commit leaves sound rows sound, whatever a server answers.
pub fn steps_stay_sound()
    ensures { StepsStaySound }
{}

/// Nor does a commit close a draft, or leave a deletion that was sent with another draft.
pub fn steps_stay_sound_device()
    ensures { StepsStaySoundDevice }
{}

/// Whatever a server answers, no draft but a deletion is lost over the commit of an answer: it is carried on in
/// the rows after it, by itself or as a copy or under another uuid, or a version that the answer tells of its
/// item has its content.
pub fn draft_kept_by_answer()
    ensures { DraftKeptByAnswer }
{}

/// Each call leaves sound rows sound, wherever it ends and whichever of its first commits a crash leaves.
pub fn runs_stay_sound()
    ensures { RunsStaySound }
{}

/// Likewise a device whose drafts open.
pub fn runs_stay_sound_device()
    ensures { RunsStaySoundDevice }
{}

/// Whatever a server answers, no draft but a deletion is lost in a sync, wherever it ends and whichever of its
/// first commits a crash leaves, also where a key set is adopted in it.
pub fn draft_kept_by_sync()
    ensures { DraftKeptBySync }
{}

/// Nor is any lost in a change of password.
pub fn draft_kept_by_passwd()
    ensures { DraftKeptByPasswd }
{}

/// Nor in a sign-in.
pub fn draft_kept_by_sign_in()
    ensures { DraftKeptBySignIn }
{}
