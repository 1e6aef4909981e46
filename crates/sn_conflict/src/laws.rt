// What holds of all answers and meetings.
ghost use Rattle.sn_conflict.specs.Laws.{OneMeeting};

/// A row meets the server's version in one way at most.
pub fn one_meeting()
    ensures { OneMeeting }
{}
