//! Items sealed by an independent implementation (OpenSSL's ChaCha20 and AES, Python's `hmac`), and what their changes
//! are refused as.

use crate::cases::{Case, each};
use crate::given::{alice, counting, hash, uuid};
use sn_items::{ItemError, Sealed, Which, Words, is_object, open_item, seal_item};
use sn_string::{KeySet, Params, Text};
use std::alloc::{AllocError, Global};

const UUID: &str = "00000000-0000-4000-8000-000000000001";

const OTHER_UUID: &str = "00000000-0000-4000-8000-000000000002";

struct SealedItem {
    seed: &'static str,
    plain: &'static str,
    content: &'static str,
    enc: &'static str,
}

static SEALED: [SealedItem; 3] = [
    SealedItem {
        seed: "0000000000000000000000000000000000000000000000000000000000000000",
        plain: "{}",
        content: "003:f8445918a1324c7a227e6361f662000ff45bf82e89e72d67716a7bf8ae92b9d2:00000000-0000-4000-8000-000000000001:9f07e7be5551387a98ba977c732d080d:bA8u3dG/9Yxoh683MebCrw==:eyJpZGVudGlmaWVyIjoiYWxpY2UiLCJwd19jb3N0IjoxLCJwd19ub25jZSI6IjZlIiwidmVyc2lvbiI6IjAwMyJ9",
        enc: "003:a391ff68764df6ddb0e3c1ade9d6d4dd123233af18f1b250959a13052a650a46:00000000-0000-4000-8000-000000000001:cb0f29a048e3656912c6533e32ee7aed:bg8CVjbYfxrfaVuslvdXtYzebYXrzftIGadrI35w21A+AfuN0okrHPIixsTFkvxvKb+1I2qKwTSyCOpu2IWpgPw1pnftV4zZ1I8OlGSsr+9DdjksnTyiDP3q4LBHQOdZ8W45CnE+RSc7IhnR3nYhBO8565nwJPnUgRvZUFk3jwKVVrOJqBA4A6gjd0BXroYn:eyJpZGVudGlmaWVyIjoiYWxpY2UiLCJwd19jb3N0IjoxLCJwd19ub25jZSI6IjZlIiwidmVyc2lvbiI6IjAwMyJ9",
    },
    SealedItem {
        seed: "6465666768696a6b6c6d6e6f707172737475767778797a7b7c7d7e7f80818283",
        plain: "{\"n\":\"ü\"}",
        content: "003:165dc066644e80a9790850f43e921dee1715078b291d44a7fcafcebd39855c17:00000000-0000-4000-8000-000000000001:18536b5773e80b426e7ce2922c98d565:dbe+AKY72I9BjOeMMMuMlw==:eyJpZGVudGlmaWVyIjoiYWxpY2UiLCJwd19jb3N0IjoxLCJwd19ub25jZSI6IjZlIiwidmVyc2lvbiI6IjAwMyJ9",
        enc: "003:9fec56d97e2f58261ec90a8b9d294901c815f5fb96b650ea8f38102ca1125ced:00000000-0000-4000-8000-000000000001:98b16be378a842deb8a6f180147d0a5c:lplBVXOi0WhycMfLGL/ClW4LCszcLcWZO3NB2ZBMv/kDHbpxstfsLFDgJ1JoVA2l8fj1pzJfeK+fgqK7OwYQ5ddl5o8kDe4BhsNwPfL5d7R1rV8uL2bnoT4WQcRIcIIQuUwgh7EIMUndbtsB8xzJnerxnmtMhAb8uSaAgt65ez83Czqo2DqRXPvtzvRjR8pP:eyJpZGVudGlmaWVyIjoiYWxpY2UiLCJwd19jb3N0IjoxLCJwd19ub25jZSI6IjZlIiwidmVyc2lvbiI6IjAwMyJ9",
    },
    SealedItem {
        seed: "0707070707070707070707070707070707070707070707070707070707070707",
        plain: "{\"text\":\"0123456789abcdef\"}",
        content: "003:8ae2d162d3a117bfc6b928aa5d64e1538a3c2a02beb5088d88d3fd3179dac77e:00000000-0000-4000-8000-000000000001:3784290c606b04fdc0720400c961e366:oP2L48WgYfR+LQYWn9EQHowqs4gpRvTezvY15wKuHsg=:eyJpZGVudGlmaWVyIjoiYWxpY2UiLCJwd19jb3N0IjoxLCJwd19ub25jZSI6IjZlIiwidmVyc2lvbiI6IjAwMyJ9",
        enc: "003:55618dd0e2f4f2ab44e890f5750b59ca305167b0ec1aad2c8e3f2c23908ee7ac:00000000-0000-4000-8000-000000000001:b6ea14d411fcc53dea4f44c9bb4d7408:swpUSxGu3yXc9TJqAZN81L81X5d13xe8XxGKmOiOraS4gpaWzeLt+v0Lz+VEDUntaso1mzGgPJuLhH47JBwNqKyqe0pnJYX7e0+TpDbxYD/jEJmdIK/UwdeYtMI4NdzVC21wqa/IJatnjbNWBqJJ1KzP1U/kTejlMsknIkT6odgPClTVUbIBqqsocN+ldKT1:eyJpZGVudGlmaWVyIjoiYWxpY2UiLCJwd19jb3N0IjoxLCJwd19ub25jZSI6IjZlIiwidmVyc2lvbiI6IjAwMyJ9",
    },
];

// The key 40 41 .. 7f under the set, and texts under that key.
const KEY: &str =
    "003:42dd60637f0b223141a69136e8a8578a53f20bda35b3a8c52c9e62562d0f930f:00000000-0000-4000-8000-000000000001:101112131415161718191a1b1c1d1e1f:XlIRqrQqZ8Yzb9Xdw+xDeD6aQuFA+chE4o0pYPOqo7L0xx1xHZFU8sae7mf5NXb53IqkRFuU22rnwq0BD1hy6xIkjxEuXZlwXWqtrkiyobpDuePpyuxO9/LJ0lTJrX4qYnjtWdP71sREvAwLX09dKc18jIc1hMMuKC3d+jsQ2tIq4tZruQ8K2MGe3eHO82h2:eyJpZGVudGlmaWVyIjoiYWxpY2UiLCJwd19jb3N0IjoxLCJwd19ub25jZSI6IjZlIiwidmVyc2lvbiI6IjAwMyJ9";

const SHORT_KEY: &str =
    "003:181fa324e6354dc99c1a1659f054dc83648b7ff3626edbaf4feaf65abae1ea23:00000000-0000-4000-8000-000000000001:101112131415161718191a1b1c1d1e1f:XlIRqrQqZ8Yzb9Xdw+xDeD6aQuFA+chE4o0pYPOqo7L0xx1xHZFU8sae7mf5NXb53IqkRFuU22rnwq0BD1hy6xIkjxEuXZlwXWqtrkiyobpDuePpyuxO9/LJ0lTJrX4qYnjtWdP71sREvAwLX09dKYOTyc+B8hxAMGiZCpmhC8w=:eyJpZGVudGlmaWVyIjoiYWxpY2UiLCJwd19jb3N0IjoxLCJwd19ub25jZSI6IjZlIiwidmVyc2lvbiI6IjAwMyJ9";

const UPPER_KEY: &str =
    "003:b86b64e61667ba41381a54ad0ba5a662664fc5a0dd436eee05f672634a1b0043:00000000-0000-4000-8000-000000000001:101112131415161718191a1b1c1d1e1f:XlIRqrQqZ8Yzb9Xdw+xDeLjdt5oDxWP/kiokIqGRYOvRX308i9115Wrxy9GwahHkOVv5cKUApgmBUgmamY3OvjG77bxmfCMDz7aawJdUIgKskRsBFQiTo+dPHk5Gdz2AXM7ZHaUvPgIUUsgFN1GOlSZqXG8022EwTyol35Y3e/R9yBWaoCVen4Y3ZnNBCq9A:eyJpZGVudGlmaWVyIjoiYWxpY2UiLCJwd19jb3N0IjoxLCJwd19ub25jZSI6IjZlIiwidmVyc2lvbiI6IjAwMyJ9";

const EMPTY: &str =
    "003:b5388cb275bfb2b812e10cac87f7d1c038ab9b58774564c3b6589d323a5df245:00000000-0000-4000-8000-000000000001:000102030405060708090a0b0c0d0e0f:jFt336ZZNknSYgrYPCRKiA==:eyJpZGVudGlmaWVyIjoiYWxpY2UiLCJwd19jb3N0IjoxLCJwd19ub25jZSI6IjZlIiwidmVyc2lvbiI6IjAwMyJ9";

const ARRAY: &str =
    "003:ca6f6bb0080c5d18bfecb511ea05d948bbf99e11e5a352b507ba50782ca6a7c9:00000000-0000-4000-8000-000000000001:000102030405060708090a0b0c0d0e0f:7sZoN1NSOYXfcnZ4AKIX4w==:eyJpZGVudGlmaWVyIjoiYWxpY2UiLCJwd19jb3N0IjoxLCJwd19ub25jZSI6IjZlIiwidmVyc2lvbiI6IjAwMyJ9";

const OBJECT: &str =
    "003:6dd43e7aebbf1e99487e3f0174371fb66d6e395084cad1ea7bb681e7b386e170:00000000-0000-4000-8000-000000000001:000102030405060708090a0b0c0d0e0f:uB38/WmFCRf2U7UFh73rKA==:eyJpZGVudGlmaWVyIjoiYWxpY2UiLCJwd19jb3N0IjoxLCJwd19ub25jZSI6IjZlIiwidmVyc2lvbiI6IjAwMyJ9";

// The first letter of the ciphertext is another.
const CHANGED_KEY: &str =
    "003:42dd60637f0b223141a69136e8a8578a53f20bda35b3a8c52c9e62562d0f930f:00000000-0000-4000-8000-000000000001:101112131415161718191a1b1c1d1e1f:AlIRqrQqZ8Yzb9Xdw+xDeD6aQuFA+chE4o0pYPOqo7L0xx1xHZFU8sae7mf5NXb53IqkRFuU22rnwq0BD1hy6xIkjxEuXZlwXWqtrkiyobpDuePpyuxO9/LJ0lTJrX4qYnjtWdP71sREvAwLX09dKc18jIc1hMMuKC3d+jsQ2tIq4tZruQ8K2MGe3eHO82h2:eyJpZGVudGlmaWVyIjoiYWxpY2UiLCJwd19jb3N0IjoxLCJwd19ub25jZSI6IjZlIiwidmVyc2lvbiI6IjAwMyJ9";

const CHANGED_OBJECT: &str =
    "003:6dd43e7aebbf1e99487e3f0174371fb66d6e395084cad1ea7bb681e7b386e170:00000000-0000-4000-8000-000000000001:000102030405060708090a0b0c0d0e0f:AB38/WmFCRf2U7UFh73rKA==:eyJpZGVudGlmaWVyIjoiYWxpY2UiLCJwd19jb3N0IjoxLCJwd19ub25jZSI6IjZlIiwidmVyc2lvbiI6IjAwMyJ9";

// The key and the object with the params part of alice's parameters with the nonce `ff`.
const OTHERS_KEY: &str =
    "003:42dd60637f0b223141a69136e8a8578a53f20bda35b3a8c52c9e62562d0f930f:00000000-0000-4000-8000-000000000001:101112131415161718191a1b1c1d1e1f:XlIRqrQqZ8Yzb9Xdw+xDeD6aQuFA+chE4o0pYPOqo7L0xx1xHZFU8sae7mf5NXb53IqkRFuU22rnwq0BD1hy6xIkjxEuXZlwXWqtrkiyobpDuePpyuxO9/LJ0lTJrX4qYnjtWdP71sREvAwLX09dKc18jIc1hMMuKC3d+jsQ2tIq4tZruQ8K2MGe3eHO82h2:eyJpZGVudGlmaWVyIjoiYWxpY2UiLCJwd19jb3N0IjoxLCJwd19ub25jZSI6ImZmIiwidmVyc2lvbiI6IjAwMyJ9";

const OTHERS_OBJECT: &str =
    "003:6dd43e7aebbf1e99487e3f0174371fb66d6e395084cad1ea7bb681e7b386e170:00000000-0000-4000-8000-000000000001:000102030405060708090a0b0c0d0e0f:uB38/WmFCRf2U7UFh73rKA==:eyJpZGVudGlmaWVyIjoiYWxpY2UiLCJwd19jb3N0IjoxLCJwd19ub25jZSI6ImZmIiwidmVyc2lvbiI6IjAwMyJ9";

const NO_STRING: &str = "003:x";

struct Refused {
    enc: &'static str,
    content: &'static str,
    uuid: &'static str,
    refusal: &'static str,
}

static REFUSED: [Refused; 18] = [
    Refused {
        enc: KEY,
        content: OBJECT,
        uuid: UUID,
        refusal: "",
    },
    Refused {
        enc: KEY,
        content: EMPTY,
        uuid: UUID,
        refusal: "content object",
    },
    Refused {
        enc: KEY,
        content: ARRAY,
        uuid: UUID,
        refusal: "content object",
    },
    Refused {
        enc: SHORT_KEY,
        content: OBJECT,
        uuid: UUID,
        refusal: "enc key",
    },
    Refused {
        enc: UPPER_KEY,
        content: OBJECT,
        uuid: UUID,
        refusal: "enc key",
    },
    Refused {
        enc: UPPER_KEY,
        content: ARRAY,
        uuid: UUID,
        refusal: "enc key",
    },
    Refused {
        enc: NO_STRING,
        content: OBJECT,
        uuid: UUID,
        refusal: "enc form",
    },
    Refused {
        enc: NO_STRING,
        content: NO_STRING,
        uuid: UUID,
        refusal: "enc form",
    },
    Refused {
        enc: KEY,
        content: NO_STRING,
        uuid: UUID,
        refusal: "content form",
    },
    Refused {
        enc: OTHERS_KEY,
        content: NO_STRING,
        uuid: UUID,
        refusal: "content form",
    },
    Refused {
        enc: OTHERS_KEY,
        content: OBJECT,
        uuid: UUID,
        refusal: "enc set",
    },
    Refused {
        enc: KEY,
        content: OTHERS_OBJECT,
        uuid: UUID,
        refusal: "content set",
    },
    Refused {
        enc: OTHERS_KEY,
        content: OTHERS_OBJECT,
        uuid: UUID,
        refusal: "enc set",
    },
    Refused {
        enc: KEY,
        content: OBJECT,
        uuid: OTHER_UUID,
        refusal: "enc uuid",
    },
    Refused {
        enc: KEY,
        content: OTHERS_OBJECT,
        uuid: OTHER_UUID,
        refusal: "content set",
    },
    Refused {
        enc: CHANGED_KEY,
        content: CHANGED_OBJECT,
        uuid: UUID,
        refusal: "enc hash",
    },
    Refused {
        enc: KEY,
        content: CHANGED_OBJECT,
        uuid: UUID,
        refusal: "content hash",
    },
    Refused {
        enc: OBJECT,
        content: OBJECT,
        uuid: UUID,
        refusal: "enc hash",
    },
];

fn set_of(params: Params) -> KeySet {
    KeySet {
        params,
        pw: [0; 32],
        mk: counting(0),
        ak: counting(32),
    }
}

fn set() -> Option<KeySet> {
    match alice() {
        Some(params) => Some(set_of(params)),
        None => None,
    }
}

impl Case for SealedItem {
    fn name(&self) -> &'static str {
        self.plain
    }

    fn holds(&self, alloc: Global) -> bool {
        match set() {
            Some(set) => self.is_sealed(alloc, &set),
            None => false,
        }
    }
}

impl SealedItem {
    fn is_sealed(&self, alloc: Global, set: &KeySet) -> bool {
        let mut words = Words::from_seed(hash(self.seed));
        // The condition of sealing, tested here so that it is known.
        match is_object(alloc, self.plain) {
            Ok(true) => {
                let sealed = seal_item(alloc, &mut words, uuid(UUID), set, self.plain);
                self.is_expected(alloc, set, &sealed)
            }
            _ => false,
        }
    }

    fn is_expected(
        &self,
        alloc: Global,
        set: &KeySet,
        sealed: &Result<Sealed, AllocError>,
    ) -> bool {
        match sealed {
            Ok(sealed) => self.is_same(sealed) && self.is_opened(alloc, set, sealed),
            Err(_) => false,
        }
    }

    fn is_same(&self, sealed: &Sealed) -> bool {
        sealed.content.as_str() == self.content && sealed.enc.as_str() == self.enc
    }

    fn is_opened(&self, alloc: Global, set: &KeySet, sealed: &Sealed) -> bool {
        is_content(&open_item(alloc, sealed, uuid(UUID), set), self.plain)
    }
}

fn is_content(answer: &Result<String, (Which, ItemError)>, expected: &str) -> bool {
    match answer {
        Ok(content) => content.as_str() == expected,
        Err(_) => false,
    }
}

fn refusal_of_key(error: &ItemError) -> &'static str {
    match error {
        ItemError::Form(_) => "enc form",
        ItemError::OtherUuid { .. } => "enc uuid",
        ItemError::HashMismatch { .. } => "enc hash",
        ItemError::NotItemKey => "enc key",
        ItemError::OtherSet { nonce } if nonce.as_str() == "ff" => "enc set",
        _ => "another",
    }
}

fn refusal_of_content(error: &ItemError) -> &'static str {
    match error {
        ItemError::Form(_) => "content form",
        ItemError::HashMismatch { .. } => "content hash",
        ItemError::NotObject => "content object",
        ItemError::OtherSet { nonce } if nonce.as_str() == "ff" => "content set",
        _ => "another",
    }
}

impl Case for Refused {
    fn name(&self) -> &'static str {
        self.refusal
    }

    fn holds(&self, alloc: Global) -> bool {
        match set() {
            Some(set) => self.is_refused(alloc, &set),
            None => false,
        }
    }
}

impl Refused {
    fn sealed(&self) -> Sealed {
        Sealed {
            content: Text::fixed(self.content),
            enc: Text::fixed(self.enc),
        }
    }

    fn is_refused(&self, alloc: Global, set: &KeySet) -> bool {
        self.is_told(&open_item(alloc, &self.sealed(), uuid(self.uuid), set))
    }

    fn is_told(&self, answer: &Result<String, (Which, ItemError)>) -> bool {
        match answer {
            Ok(_) => self.refusal.is_empty(),
            Err((Which::Enc, error)) => refusal_of_key(error) == self.refusal,
            Err((Which::Content, error)) => refusal_of_content(error) == self.refusal,
        }
    }
}

// A text, and whether `serde_json` reads it as an object.
struct Judged {
    text: &'static str,
    is_object: bool,
}

static OBJECTS: [Judged; 12] = [
    Judged {
        text: "",
        is_object: false,
    },
    Judged {
        text: "{}",
        is_object: true,
    },
    Judged {
        text: " {\"n\": 1}\n",
        is_object: true,
    },
    Judged {
        text: "[]",
        is_object: false,
    },
    Judged {
        text: "1",
        is_object: false,
    },
    Judged {
        text: "null",
        is_object: false,
    },
    Judged {
        text: "\"{}\"",
        is_object: false,
    },
    Judged {
        text: "{",
        is_object: false,
    },
    Judged {
        text: "{}{}",
        is_object: false,
    },
    Judged {
        text: "{\"n\":1e999}",
        is_object: false,
    },
    Judged {
        text: "{\"n\":\"\\ud800\"}",
        is_object: false,
    },
    Judged {
        text: "{\"n\":1,\"n\":2}",
        is_object: true,
    },
];

impl Case for Judged {
    fn name(&self) -> &'static str {
        self.text
    }

    fn holds(&self, alloc: Global) -> bool {
        is_object(alloc, self.text) == Ok(self.is_object)
    }
}

#[test]
fn sealed_or_refused(rt: HostRuntime) {
    each(&rt, rt.alloc(), &SEALED);
    each(&rt, rt.alloc(), &REFUSED);
    each(&rt, rt.alloc(), &OBJECTS);
}
