//! What a commit's changes make of a device's rows that show a state. The functions do nothing;
//! their contracts are the laws.

ghost use Rattle.sn_shows.specs.Laws.{EditedShows, EditKeeps, JoinedShows, JoinKeeps, PostedShows, PostKeeps, SettledShows, SettleKeeps, TokensShow};

/// A device that comes to hold its first set shows the state after the join.
pub fn joined_shows()
    ensures { JoinedShows }
{}

/// The row of a device's account put again shows the same state.
pub fn tokens_show()
    ensures { TokensShow }
{}

/// The row of a new item shows the state after the edit.
pub fn edited_shows()
    ensures { EditedShows }
{}

/// A row put again as sent shows the state after the post.
pub fn posted_shows()
    ensures { PostedShows }
{}

/// A row put again without its draft shows the state after the settling.
pub fn settled_shows()
    ensures { SettledShows }
{}

/// A join of one device leaves what another one's rows show.
pub fn join_keeps()
    ensures { JoinKeeps }
{}

/// An edit on one device leaves what another one's rows show.
pub fn edit_keeps()
    ensures { EditKeeps }
{}

/// A post of one device leaves what another one's rows show.
pub fn post_keeps()
    ensures { PostKeeps }
{}

/// A settling on one device leaves what another one's rows show.
pub fn settle_keeps()
    ensures { SettleKeeps }
{}
