// What CBC's relation fixes.
ghost use Rattle.sn_cbc.specs.Laws.{OnePlain, OneCiphertext};

/// A ciphertext has one plain text under a key and an initialization vector.
pub fn one_plain()
    ensures { OnePlain }
{}

/// A plain text has one ciphertext under a key and an initialization vector.
pub fn one_ciphertext()
    ensures { OneCiphertext }
{}
