// What holds of all rows and sets.
ghost use Rattle.sn_rekey.specs.Laws.{ClosedStays, OpenOrNot, SameContent, VersionStays};

/// A row of which nothing opens stays as it is at an adoption.
pub fn closed_stays()
    ensures { ClosedStays }
{}

/// Something of a row opens, or nothing does.
pub fn open_or_not()
    ensures { OpenOrNot }
{}

/// What opens under a set that is held has the same content under the new one, once it is sealed again.
pub fn same_content()
    ensures { SameContent }
{}

/// A place with a version has one after an adoption, which that became.
pub fn version_stays()
    ensures { VersionStays }
{}
