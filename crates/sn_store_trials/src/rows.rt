// The kind and the place of a payload's first fault, which no command tells.
use sn_rows::{RowError, read};
use std::alloc::Global;

// Worked out by hand from the grammar.
static REFUSED: [(&[u8], RowError); 14] = [
    (b"\x02", RowError::Kind { place: 0 }),
    (b"\0\x09", RowError::Kind { place: 1 }),
    (b"\0\x11\0\0\0\0\x02", RowError::Kind { place: 6 }),
    (b"\0", RowError::Short { place: 1 }),
    (b"\0\x11\0\0\0", RowError::Short { place: 2 }),
    (b"\0\x11\0\0\0\x01", RowError::Short { place: 6 }),
    (b"\x01\x11\0\0\0\0\0\0\0\0", RowError::Short { place: 10 }),
    (
        b"\0\x02\0\0\0\x07\0\0\0\0\0\0\0",
        RowError::Short { place: 6 },
    ),
    (b"\0\x11\0\0\0\x01\0", RowError::Extra { place: 6 }),
    (b"\0\x12\0\0\0\x02\0\0", RowError::Extra { place: 7 }),
    (
        b"\0\x02\0\0\0\x09\0\0\0\0\0\0\0\0\0",
        RowError::Extra { place: 14 },
    ),
    (b"\0\x12\0\0\0\x01\x03", RowError::Range { place: 6 }),
    (
        b"\0\x11\0\0\0\0\0\x12\0\0\0\x01\x03",
        RowError::Range { place: 12 },
    ),
    (
        b"\x01\x02\0\0\0\x08\0\0\0\0\0\0\0\0\0\0\0\x05\0\0\0\x01\xff",
        RowError::Range { place: 22 },
    ),
];

fn is_refused(alloc: Global, payload: &[u8], expected: RowError) -> bool {
    match read(alloc, payload) {
        Ok(_) => false,
        Err(error) => error == expected,
    }
}

#[test]
fn refused_payloads(rt: HostRuntime) {
    for (payload, expected) in &REFUSED {
        assert!(rt; is_refused(rt.alloc(), payload, *expected), "{payload:?}");
    }
}
