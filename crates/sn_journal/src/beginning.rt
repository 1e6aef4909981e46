// How a file begins.
ghost use Rattle.std.specs.Prelude.{◌≡◌, ◌↔◌, ◌++◌, [], ◌∷◌, drop, IsTrue};
ghost use Rattle.sn_journal.specs.Image.{header_of};
ghost use Rattle.sn_journal.specs.Loading.{IsBeginning, IsCommonFront};

use crate::Owner;

/// How a file begins.
#[derive(Clone, Copy, Debug, PartialEq, Eq)]
pub(crate) enum Beginning {
    Unfinished(Start),
    Header,
    Foreign { place: usize },
}

/// What a start lacks.
#[derive(Clone, Copy, Debug, PartialEq, Eq)]
pub(crate) enum Start {
    Fresh,
    NoHeader,
    NoFirstByte,
}

pub(crate) fn beginning_of(bytes: &[u8], owner: Owner) -> Beginning
    ensures { IsBeginning owner bytes.now result }
{
    if bytes.len() <= 1 {
        return Beginning::Unfinished(Start::Fresh);
    }
    if bytes.len() <= 17 && bytes[0] == 0 {
        return Beginning::Unfinished(Start::NoHeader);
    }
    let header = header(owner);
    let place = common_front(bytes, &header);
    if place == 16 {
        return Beginning::Header;
    }
    if bytes.len() == 17 && bytes[0] != b'S' && is_headless(bytes, owner) {
        return Beginning::Unfinished(Start::NoFirstByte);
    }
    Beginning::Foreign { place }
}

#[tactic(auto, unfolding(crate::specs::Image::header_of))]
fn header(owner: Owner) -> [u8; 16]
    ensures { result ≡ header_of owner }
{
    match owner {
        Owner::Server => *b"SNSYNC-JOURNALS1",
        Owner::Device => *b"SNSYNC-JOURNALD1",
    }
}

/// The header from its second byte on, and a closed gate.
#[tactic(auto, unfolding(crate::specs::Image::header_of))]
pub(crate) fn after_first_byte(owner: Owner) -> [u8; 16]
    ensures { result ≡ drop 1 (header_of owner) ++ 0 ∷ [] }
{
    match owner {
        Owner::Server => *b"NSYNC-JOURNALS1\0",
        Owner::Device => *b"NSYNC-JOURNALD1\0",
    }
}

// Whether all but the first byte is that of an empty journal.
fn is_headless(bytes: &[u8], owner: Owner) -> bool
    ensures { IsTrue result ↔ (drop 1 bytes.now ≡ drop 1 (header_of owner) ++ 0 ∷ []) }
{
    match bytes {
        [] => false,
        [_, rest @ ..] => rest == after_first_byte(owner).as_slice(),
    }
}

// How many bytes two texts have in common.
fn common_front(bytes: &[u8], other: &[u8]) -> usize
    ensures { IsCommonFront bytes.now other.now result }
{
    let mut place = 0;
    'same: while place < bytes.len() && place < other.len() && bytes[place] == other[place] {
        place += 1;
    }
    place
}
