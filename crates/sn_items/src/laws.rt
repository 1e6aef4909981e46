// What opening fixes, and that what is sealed opens.
ghost use Rattle.sn_items.specs.ItemLaws.{OneContent, SealedItemOpens};
ghost use Rattle.sn_items.specs.Laws.{OneText, SealedOpens};

/// A text opens to one plain text at most.
pub fn one_text()
    ensures { OneText }
{}

/// What `seal_text` gives, `open_text` opens to what was sealed.
pub fn sealed_opens()
    ensures { SealedOpens }
{}

/// Two strings are the item of one content at most, under one uuid and set.
pub fn one_content()
    ensures { OneContent }
{}

/// What `seal_item` gives, `open_item` opens to what was sealed.
pub fn sealed_item_opens()
    ensures { SealedItemOpens }
{}
