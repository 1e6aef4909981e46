//! Draws and sealed strings of an independent implementation in Python: ChaCha20, `hmac` and AES from `cryptography`.

use crate::cases::{Case, each, so};
use crate::given::{alice, counting, hash, iv, key, params, uuid};
use sn_items::{ItemError, Words, open_text, seal_owned_text, seal_text};
use sn_string::{Params, StringError, with_params};
use std::alloc::{AllocError, Global};
use uuid::Uuid;

mod items;

struct Drawn {
    seed: &'static str,
    iv: &'static str,
    item_key: &'static str,
    uuid: &'static str,
    nonce: &'static str,
    secret: &'static str,
    iv_again: &'static str,
}

static DRAWS: [Drawn; 4] = [
    Drawn {
        seed: "0000000000000000000000000000000000000000000000000000000000000000",
        iv: "76b8e0ada0f13d90405d6ae55386bd28",
        item_key: "bdd219b8a08ded1aa836efcc8b770dc7da41597c5157488d7724e03fb8d84a376a43b8f41518a11cc387b669b2ee65869f07e7be5551387a98ba977c732d080d",
        uuid: "cb0f29a0-48e3-4569-92c6-533e32ee7aed",
        nonce: "29b721769ce64e43d57133b074d839d531ed1f28510afb45ace10a1f4b794d6f",
        secret: "2d09a0e663266ce1ae7ed1081968a0758e718e997bd362c6b0c34634a9a0b35d",
        iv_again: "012737681f7b5d0f281e3afde458bc1e",
    },
    Drawn {
        seed: "c3f67e868942132a088e96f0d5f82531fad2e9c61632dd1b9ceffae697a05bd4",
        iv: "2d94cb9587964e35eec1e804ab0d9b53",
        item_key: "dfb4375a6bc5bae18975d08e75dbb5a3e8c83f90dcf04b88f55c1f1fcb6802a6249ad91e52630c41a21e9dd1ad4f454f70af2484513802f36013412d859ce82a",
        uuid: "3540c0e4-0ebb-4ecd-ba84-9dcc1d96ad93",
        nonce: "3059fb908f7e0c9d073772833d09f63f98452ea669c3be40357dece631c384a9",
        secret: "dadbe3c56ec980fa2f82e68df8013a2f5cd6871497aa80fbc43e649642f63730",
        iv_again: "18aa02c5c0931c1295d8f293d942a543",
    },
    Drawn {
        seed: "f924a3733cc013f9e982f665cdc174701af2e5ad7b7dcc87f4cede13becc77f1",
        iv: "75599d656992f5212340237fd84fe32e",
        item_key: "71fad4aecd0502d131ff2671a0adf62991d056f311aa55a38f6ae01e7ec547025f5f998c78069c9563b9b8dbd66b0c2a52cb96ba6e0ccb88e4e3ef3f9ec1e01c",
        uuid: "3d0fef41-af60-4f65-919e-de1e939e97bb",
        nonce: "fadcecb2ba3d8ff3b5e215418be6eda2fc8518d6f2a836ff45b523c75a0d9197",
        secret: "206e3f77682208026315cb83bd0aed42de856d9099b3b5fad7d3da4c0e9203da",
        iv_again: "f7e58c46e1773a6b0b0cb1f3f39c614c",
    },
    Drawn {
        seed: "21a2a9611c673e081107c4d83370158aeb7452dfed63d9e15d20c7000c7ef54f",
        iv: "7002fff76c4aa1a6b94ab7e2615acd86",
        item_key: "424740764a15553166dd6a808d96b413e04c0a5f0a03c4fc64edcfbf478c40eac4e065deee9c450944cebaccf454972d2ecdc148c29c6dc3109b37f3bdf9c05d",
        uuid: "c0ff0e53-6b08-4f38-b5aa-a4913d9f7b4c",
        nonce: "9399d029940af9b982855eabe10d5b07d396851c7e61ab2bc4a792b0b6978051",
        secret: "1a330256e9cd8ce722ef804f79eddc9d8ac0c82c0a1f8519749b78034cd9f89c",
        iv_again: "940b20ee1a3781c93b640d66ef3c8990",
    },
];

impl Case for Drawn {
    fn name(&self) -> &'static str {
        self.seed
    }

    fn holds(&self, _alloc: Global) -> bool {
        let mut words = Words::from_seed(hash(self.seed));
        self.are_first(&mut words) && self.are_next(&mut words)
    }
}

impl Drawn {
    fn are_first(&self, words: &mut Words) -> bool {
        words.iv() == iv(self.iv)
            && words.item_key() == key(self.item_key)
            && words.uuid() == uuid(self.uuid)
    }

    fn are_next(&self, words: &mut Words) -> bool {
        words.nonce() == hash(self.nonce)
            && words.secret() == hash(self.secret)
            && words.iv() == iv(self.iv_again)
    }
}

struct Written {
    seed: &'static str,
    key: [&'static str; 2],
    uuid: &'static str,
    identifier: &'static str,
    cost: u32,
    nonce: &'static str,
    plain: &'static str,
    string: &'static str,
}

static WRITTEN: [Written; 8] = [
    Written {
        seed: "13b3bc8af52c19a1266e62bd3f2f07c99fa63bc6999baddda84b7804f6906857",
        key: [
            "ffb8d1a1e28de0ac99432becf5e039b6abfa17d025ce87c0965ba51d2714bc53",
            "5f099784c6d3261931c23f2e4553f688b6a29233337692d592d7c7f03d17ab72",
        ],
        uuid: "87ff148f-5dc7-455c-b379-a13a48c54e39",
        identifier: "alice",
        cost: 110000,
        nonce: "6e",
        plain: "",
        string: "003:9ffc9328b75d354dce159d4e5d755bbe2236caaba21fd58d90ba6de4195419f8:87ff148f-5dc7-455c-b379-a13a48c54e39:e9fa86d6c2767cd153a7d015fd3334c2:2pFvlcN5NbEe2LsI2J3cPg==:eyJpZGVudGlmaWVyIjoiYWxpY2UiLCJwd19jb3N0IjoxMTAwMDAsInB3X25vbmNlIjoiNmUiLCJ2ZXJzaW9uIjoiMDAzIn0=",
    },
    Written {
        seed: "487e76105b9e1d6ae070d829b80fd4ef89430937c4c1c416a0ad6535e786c022",
        key: [
            "91388588ae8a539a36df6b37f759c19149d7d5e371334f04632eaa7cd8ff4c6f",
            "9fc8948342de1d402331a9aa300b4aa7adf8560ea25b3f620185fb7a8421f5d2",
        ],
        uuid: "16fa8660-90c9-4e08-9026-ba81ccd29f52",
        identifier: "ü",
        cost: 110000,
        nonce: "6e",
        plain: "x",
        string: "003:3a2886550d64ca85a4dc01fb2a86e7d6c7c93c2ca13fbe27a37afb9e4dd55ed3:16fa8660-90c9-4e08-9026-ba81ccd29f52:90125f4a836746abb0d7252f3c555405:G7QBft+rN4Y6fdGYCf2FKw==:eyJpZGVudGlmaWVyIjoiw7wiLCJwd19jb3N0IjoxMTAwMDAsInB3X25vbmNlIjoiNmUiLCJ2ZXJzaW9uIjoiMDAzIn0=",
    },
    Written {
        seed: "0992110e0224f4515cc4817db017c81356a66d2ec00dfa4c297be8f2149e866e",
        key: [
            "a12e059647b1070566fea14098a7f0f2755af8603a63e0910719a7bb082411d5",
            "f482ec2916e1c157a2767cb8b624146cb6d80f0245f0194721fe110e53aab306",
        ],
        uuid: "0277c27d-0ba3-4808-b4e6-0641a69f1f99",
        identifier: "alice",
        cost: 1,
        nonce: "6e",
        plain: "{\"a\":1}",
        string: "003:af644b1fd51d492349c5fd66ef321647cd5d60dcaa44361e93367ce0f227e4d2:0277c27d-0ba3-4808-b4e6-0641a69f1f99:dc196404546564a3cb8cff0c0ef14fc9:X8B9HvUJuBj+VwZtITqn1w==:eyJpZGVudGlmaWVyIjoiYWxpY2UiLCJwd19jb3N0IjoxLCJwd19ub25jZSI6IjZlIiwidmVyc2lvbiI6IjAwMyJ9",
    },
    Written {
        seed: "88fe4f85e0396471c7004399eadbdc00afc74294196d111c960fe84d3f92ced0",
        key: [
            "2d6f90044140fd853183a94d3fce5b16bf73e08ee8ef471085bb506370b68296",
            "f393d73ba5aa640c7fe6b6a89099d6e0a0e20979c520ee366f1c82521ecefd2d",
        ],
        uuid: "8a5784e8-160b-47f1-a41d-6f1bdfce5aea",
        identifier: "alice",
        cost: 4294967295,
        nonce: "6e",
        plain: "0123456789abcde",
        string: "003:7d81a3d77817921bd4eca86dd12205095c3bd85685f3b3bec58956688941e652:8a5784e8-160b-47f1-a41d-6f1bdfce5aea:1b6f573bdc3298ac683c684ef66b5e89:hFSed/ir/frqfQRkT+h9TQ==:eyJpZGVudGlmaWVyIjoiYWxpY2UiLCJwd19jb3N0Ijo0Mjk0OTY3Mjk1LCJwd19ub25jZSI6IjZlIiwidmVyc2lvbiI6IjAwMyJ9",
    },
    Written {
        seed: "5f9ff98a174ae7838346a43d33e8e9c7645affbf461de1a3ea3fd0cf4edcb613",
        key: [
            "4817b7b643de0de63a9b034f0cc0af7369b5001ba00ed511ab6ea608606e1155",
            "93b154a2136864916ff2cf0b0b09268dd6f46cb8bf449d7310cd24cc15affa41",
        ],
        uuid: "e6de85ee-198f-4790-9dfa-765b0f59cdbe",
        identifier: "alice",
        cost: 110000,
        nonce: "6e",
        plain: "0123456789abcdef",
        string: "003:8db77ac42ea4f15555fe5ccfd24bbaea3f8a5372c7502499862e9a2da729c965:e6de85ee-198f-4790-9dfa-765b0f59cdbe:0938658e2b2f20954d52baabbb1e90c1:i1ISoZbAfUyOyRx51lDjekg6sc/+osdTohgxCekZbTE=:eyJpZGVudGlmaWVyIjoiYWxpY2UiLCJwd19jb3N0IjoxMTAwMDAsInB3X25vbmNlIjoiNmUiLCJ2ZXJzaW9uIjoiMDAzIn0=",
    },
    Written {
        seed: "633b5686c02401df05044cd629e98289ea4974f3b631f98f3706ed67cbf40cdc",
        key: [
            "965fbfe36bfe2ebd0d0f77871b18614c0565bf8c58a7d749d5c732ccdfcf34a6",
            "760b343bd94cfcbd51a2f3d3842859d128c854c4bbfc69d840186df838c1d284",
        ],
        uuid: "a722e90d-6366-49c2-ba9e-fbb89175e95d",
        identifier: "alice",
        cost: 4294967295,
        nonce: "6e",
        plain: "0123456789abcdefg",
        string: "003:818c9534ef96151846a0b18ae5997939d93c4a6b9b38884af5602dfbc8525062:a722e90d-6366-49c2-ba9e-fbb89175e95d:2c4080c8f9ba3caef21e41e1e3b256aa:4weS+9UVPgoCQ2q5snTAFmKjIRhCC0cqHuAllsni+d4=:eyJpZGVudGlmaWVyIjoiYWxpY2UiLCJwd19jb3N0Ijo0Mjk0OTY3Mjk1LCJwd19ub25jZSI6IjZlIiwidmVyc2lvbiI6IjAwMyJ9",
    },
    Written {
        seed: "3568b7d8c41a30c171ea9e58fd742cccab540f1f39cbbe0f411de56b5a7bfbd3",
        key: [
            "b54f88cf47d5bfa8c47e33d282707223ff2a9ccc22f2ae5ee826c7a2ea6e2184",
            "e4ce366c18e4cd9f4ed8aa441a4bb5af0321e2cdb56ca24dfaf908453d8e5dcb",
        ],
        uuid: "7adcf873-0812-4562-909e-3ced579bddf9",
        identifier: "ü",
        cost: 4294967295,
        nonce: "6e",
        plain: "zażółć gęślą jaźń",
        string: "003:fdc7bcd64524c202bb5f223a23e51ba90fa55d7de846abebbaf5d9d0af6db417:7adcf873-0812-4562-909e-3ced579bddf9:08af7a6863de5047b0bcefa9a0303e1e:4C+8CIBlpbOiyG7bfoak9rYZv8rwnfdgdVO+lScbEvQ=:eyJpZGVudGlmaWVyIjoiw7wiLCJwd19jb3N0Ijo0Mjk0OTY3Mjk1LCJwd19ub25jZSI6IjZlIiwidmVyc2lvbiI6IjAwMyJ9",
    },
    Written {
        seed: "1258874245b62f791f0f2f0a28d1782eda2e9d4ea7a9e5b6736016b363dbb030",
        key: [
            "4dbef34401afa05258fdc386998f06431e6a200e1f19f247207b9818d0ff4446",
            "c36935a20691856e51c62b0e9691b17ed382621d67915b248e2ec167af4bb857",
        ],
        uuid: "f0803e1c-b352-49d5-a1ec-885a960bc720",
        identifier: "ü",
        cost: 110000,
        nonce: "6e",
        plain: "",
        string: "003:f748a2bbf2928194119cae5517c3101544c5b857b3d9015e58788fd4bc33f83a:f0803e1c-b352-49d5-a1ec-885a960bc720:7dc13d018a2d1911d70be2e4867b4b45:4+gNgUYxshQ3sybELPzzrw==:eyJpZGVudGlmaWVyIjoiw7wiLCJwd19jb3N0IjoxMTAwMDAsInB3X25vbmNlIjoiNmUiLCJ2ZXJzaW9uIjoiMDAzIn0=",
    },
];

impl Case for Written {
    fn name(&self) -> &'static str {
        self.string
    }

    fn holds(&self, alloc: Global) -> bool {
        self.is_sealed(alloc) && self.is_opened(alloc)
    }
}

impl Written {
    fn is_sealed(&self, alloc: Global) -> bool {
        match params(self.identifier, self.cost, self.nonce) {
            Some(params) => is_text(&self.sealed(alloc, &params), self.string),
            None => false,
        }
    }

    fn sealed(&self, alloc: Global, params: &Params) -> Result<String, AllocError> {
        seal_text(
            alloc,
            &mut Words::from_seed(hash(self.seed)),
            self.plain,
            uuid(self.uuid),
            &hash(self.key[0]),
            &hash(self.key[1]),
            params,
        )
    }

    fn is_opened(&self, alloc: Global) -> bool {
        let encryption_key = hash(self.key[0]);
        let authentication_key = hash(self.key[1]);
        let uuid = uuid(self.uuid);
        is_plain(
            &open_text(
                alloc,
                self.string,
                uuid,
                &encryption_key,
                &authentication_key,
            ),
            self.plain,
        )
    }
}

fn is_text(written: &Result<String, AllocError>, expected: &str) -> bool {
    match written {
        Ok(text) => text.as_str() == expected,
        Err(_) => false,
    }
}

fn is_plain(opened: &Result<String, ItemError>, expected: &str) -> bool {
    match opened {
        Ok(text) => text.as_str() == expected,
        Err(_) => false,
    }
}

// A string of the independent implementation under the key 00 01 .. 3f, and what its changes are refused as.
const UUID: &str = "00000000-0000-4000-8000-000000000001";

const OTHER_UUID: &str = "00000000-0000-4000-8000-000000000002";

const STRING: &str =
    "003:b575ce3c2695f7385e3d9b9fd8888357bc2fddb015d6fa35e3086f83c423e455:00000000-0000-4000-8000-000000000001:76b8e0ada0f13d90405d6ae55386bd28://0LNp/oXedvv270MZbI7YEYIqJpGRG8VSSOyP2NKA0=:eyJpZGVudGlmaWVyIjoiYWxpY2UiLCJwd19jb3N0IjoxLCJwd19ub25jZSI6IjZlIiwidmVyc2lvbiI6IjAwMyJ9";

const OTHER_CIPHERTEXT: &str =
    "003:b575ce3c2695f7385e3d9b9fd8888357bc2fddb015d6fa35e3086f83c423e455:00000000-0000-4000-8000-000000000001:76b8e0ada0f13d90405d6ae55386bd28:A/0LNp/oXedvv270MZbI7YEYIqJpGRG8VSSOyP2NKA0=:eyJpZGVudGlmaWVyIjoiYWxpY2UiLCJwd19jb3N0IjoxLCJwd19ub25jZSI6IjZlIiwidmVyc2lvbiI6IjAwMyJ9";

const PLAIN: &str = "0123456789abcdef";

fn sealed_with(alloc: Global, plain: String, params: &Params) -> Result<String, AllocError> {
    seal_owned_text(
        alloc,
        &mut Words::from_seed([0; 32]),
        plain,
        uuid(UUID),
        &counting(0),
        &counting(32),
        params,
    )
}

fn is_sealed_in_place(alloc: Global, params: &Params) -> bool {
    match PLAIN.to_string(alloc) {
        Ok(plain) => is_text(&sealed_with(alloc, plain, params), STRING),
        Err(_) => false,
    }
}

fn seals_in_place(alloc: Global) -> bool {
    match alice() {
        Some(params) => is_sealed_in_place(alloc, &params),
        None => false,
    }
}

// A string, the uuid of the item that it is opened as, and what is told of it.
struct Changed {
    text: &'static str,
    uuid: &'static str,
    told: &'static str,
}

static CHANGED: [Changed; 4] = [
    Changed {
        text: STRING,
        uuid: UUID,
        told: "opened",
    },
    Changed {
        text: STRING,
        uuid: OTHER_UUID,
        told: "of another uuid",
    },
    Changed {
        text: OTHER_CIPHERTEXT,
        uuid: UUID,
        told: "of another hash",
    },
    Changed {
        text: "003:x",
        uuid: UUID,
        told: "of two parts",
    },
];

fn opened(alloc: Global, text: &str, uuid: Uuid) -> Result<String, ItemError> {
    open_text(alloc, text, uuid, &counting(0), &counting(32))
}

fn told(answer: &Result<String, ItemError>) -> &'static str {
    match answer {
        Ok(text) if text.as_str() == PLAIN => "opened",
        Ok(_) => "another text",
        Err(error) => told_of(error),
    }
}

fn told_of(error: &ItemError) -> &'static str {
    match error {
        ItemError::OtherUuid { written } if *written == uuid(UUID) => "of another uuid",
        ItemError::HashMismatch { written, computed } if written != computed => "of another hash",
        ItemError::Form(StringError::Parts { count: 2 }) => "of two parts",
        _ => "another refusal",
    }
}

impl Case for Changed {
    fn name(&self) -> &'static str {
        self.told
    }

    fn holds(&self, alloc: Global) -> bool {
        told(&opened(alloc, self.text, uuid(self.uuid))) == self.told
    }
}

// The string with other parameters, where it opens.
fn with_others(alloc: Global, params: &Params) -> Option<String> {
    match open_text(alloc, STRING, uuid(UUID), &counting(0), &counting(32)) {
        Ok(_) => with_params(alloc, STRING, params).ok(),
        Err(_) => None,
    }
}

fn opens_with_others(alloc: Global, params: &Params) -> bool {
    match with_others(alloc, params) {
        Some(text) => is_plain(&opened(alloc, text.as_str(), uuid(UUID)), PLAIN),
        None => false,
    }
}

fn is_hash_apart(alloc: Global) -> bool {
    match params("bob", 7, "ff") {
        Some(params) => opens_with_others(alloc, &params),
        None => false,
    }
}

#[test]
fn draws(rt: HostRuntime) {
    each(&rt, rt.alloc(), &DRAWS);
}

#[test]
fn strings(rt: HostRuntime) {
    each(&rt, rt.alloc(), &WRITTEN);
    each(&rt, rt.alloc(), &CHANGED);
    so(&rt, "sealed in place", seals_in_place(rt.alloc()));
    so(&rt, "with other parameters", is_hash_apart(rt.alloc()));
}
