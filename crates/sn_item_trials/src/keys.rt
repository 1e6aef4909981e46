//! The text that is hashed to the salt, and the parameters that keys are kept with. The salts, keys and check values of these
//! cases are compared as built, in `tests/test_primitives.py`.

use crate::cases::{Case, each};
use crate::given::params;
use sn_keys::{derive, salt_text};
use sn_string::{KeySet, Params};
use std::alloc::{AllocError, Global};

struct Salted {
    password: &'static str,
    identifier: &'static str,
    pw_cost: u32,
    pw_nonce: &'static str,
    salt_text: &'static str,
}

static SALTED: [Salted; 6] = [
    Salted {
        password: "correct horse battery staple",
        identifier: "alice",
        pw_cost: 1,
        pw_nonce: "6e",
        salt_text: "alice:SF:003:1:6e",
    },
    Salted {
        password: "correct horse battery staple",
        identifier: "a",
        pw_cost: 3,
        pw_nonce: "6e",
        salt_text: "a:SF:003:3:6e",
    },
    Salted {
        password: "пароль",
        identifier: "ü@x.de",
        pw_cost: 1,
        pw_nonce: "ñ",
        salt_text: "ü@x.de:SF:003:1:ñ",
    },
    Salted {
        password: "пароль",
        identifier: "quote\"back\\slash",
        pw_cost: 2,
        pw_nonce: "ñ",
        salt_text: "quote\"back\\slash:SF:003:2:ñ",
    },
    Salted {
        password: " ",
        identifier: "日本",
        pw_cost: 3,
        pw_nonce: "6e",
        salt_text: "日本:SF:003:3:6e",
    },
    Salted {
        password: "correct horse battery staple",
        identifier: "quote\"back\\slash",
        pw_cost: 10,
        pw_nonce: "f21bc971267fd5407fa274ef05de2d303ba7aefe461fc92fd9b66689f511d6f9",
        salt_text: "quote\"back\\slash:SF:003:10:f21bc971267fd5407fa274ef05de2d303ba7aefe461fc92fd9b66689f511d6f9",
    },
];

impl Case for Salted {
    fn name(&self) -> &'static str {
        self.salt_text
    }

    fn holds(&self, alloc: Global) -> bool {
        match params(self.identifier, self.pw_cost, self.pw_nonce) {
            Some(params) => self.is_text(alloc, &params) && self.keeps(alloc, &params),
            None => false,
        }
    }
}

impl Salted {
    fn is_text(&self, alloc: Global, params: &Params) -> bool {
        match salt_text(alloc, params) {
            Ok(text) => text.as_str() == self.salt_text,
            Err(_) => false,
        }
    }

    fn keeps(&self, alloc: Global, params: &Params) -> bool {
        are_kept(&derive(alloc, self.password, params), params)
    }
}

fn are_kept(derived: &Result<KeySet, AllocError>, params: &Params) -> bool {
    match derived {
        Ok(set) => set.params.same(params),
        Err(_) => false,
    }
}

#[test]
fn salts(rt: HostRuntime) {
    each(&rt, rt.alloc(), &SALTED);
}
