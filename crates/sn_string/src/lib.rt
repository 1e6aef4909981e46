//! The 003 string of the encryption protocol: its parts, their forms, and the types that the
//! crates above keep texts, bytes, lists, parameters and key sets in.
#![tactic(auto)]

pub mod base64_texts;
pub mod bounds;
pub mod bytes;
pub mod ciphertexts;
pub mod forms;
pub mod hex_texts;
pub mod laws;
mod lent;
pub mod naming;
pub mod owned_list;
pub mod params;
pub mod params_part;
mod plain_params;
pub mod reader;
pub mod text;
pub mod try_clone;
pub mod uuid_texts;
pub mod writer;

pub use base64_texts::{base64_bytes, base64_text};
pub use bounds::{LAST_STAMP, LONGEST_CONTENT, MOST_ACCOUNTS, MOST_BYTES, MOST_STRING};
pub use bytes::Bytes;
pub use ciphertexts::is_ciphertext;
pub use forms::{is_hash, is_iv, is_uuid};
pub use hex_texts::{hash_bytes, hash_digits, hex_text, iv_bytes, key_bytes};
pub use naming::{names_uuid, names_uuid_under};
pub use owned_list::OwnedList;
pub use params::{KeySet, Params};
pub use params_part::{params_of, params_of_part, params_text, params_value};
pub use reader::{Parts, StringError, read};
pub use text::Text;
pub use try_clone::TryClone;
pub use uuid_texts::{uuid_of, uuid_text};
pub use writer::{authenticated, authenticated_text, with_hash, with_params, write};
