//! Copies and a note that were worked out by hand.

use crate::cases::{Case, each, so};
use sn_notes::{conflict_copy, note};
use sn_string::uuid_of;
use std::alloc::Global;

struct Copied {
    content: &'static str,
    // What its copy begins with, before the member `conflict_of`; none where it is its own copy.
    front: Option<&'static str>,
}

static COPIES: [Copied; 10] = [
    Copied {
        content: "{}",
        front: Some("{"),
    },
    Copied {
        content: "{ }",
        front: Some("{ "),
    },
    Copied {
        content: "{\"title\":\"a\"}",
        front: Some("{\"title\":\"a\","),
    },
    Copied {
        content: "{\"a\":1} ",
        front: Some("{\"a\":1,"),
    },
    Copied {
        content: "{\"conflict_of\":\"x\"}",
        front: Some("{\"conflict_of\":\"x\","),
    },
    Copied {
        content: "{\"a\":{}\t}\r\n",
        front: Some("{\"a\":{}\t,"),
    },
    Copied {
        content: "{\"a\":\"{\"}",
        front: Some("{\"a\":\"{\","),
    },
    Copied {
        content: "[]",
        front: None,
    },
    Copied {
        content: "",
        front: None,
    },
    Copied {
        content: "{}\u{c}",
        front: None,
    },
];

const MEMBER: &str = "\"conflict_of\":\"00000000-0000-4000-8000-000000000001\"}";

impl Case for Copied {
    fn name(&self) -> &'static str {
        self.content
    }

    fn holds(&self, alloc: Global) -> bool {
        self.is_copied(alloc) == Some(true)
    }
}

impl Copied {
    fn is_copied(&self, alloc: Global) -> Option<bool> {
        let uuid = uuid_of("00000000-0000-4000-8000-000000000001")?;
        let copy = conflict_copy(alloc, self.content, uuid).ok()?;
        Some(self.is_expected(copy.as_str()))
    }

    // Its own content, or its front and the member that names the item.
    fn is_expected(&self, copy: &str) -> bool {
        match self.front {
            Some(front) => copy.strip_prefix(front) == Some(MEMBER),
            None => copy == self.content,
        }
    }
}

fn is_noted(alloc: Global) -> bool {
    match note(alloc, "a", "b") {
        Ok(made) => made.as_str() == "{\"references\":[],\"text\":\"b\",\"title\":\"a\"}",
        Err(_) => false,
    }
}

#[test]
fn copies_and_a_note(rt: HostRuntime) {
    each(&rt, rt.alloc(), &COPIES);
    so(&rt, "a note", is_noted(rt.alloc()));
}
