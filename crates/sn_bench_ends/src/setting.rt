//! What all runs share: the account, and the words.

/// The account of the devices.
pub(crate) const IDENTIFIER: &str = "ann@home";

pub(crate) const PASSWORD: &str = "one password for both";

/// The least that there is, so that a run's time isn't that of its keys.
pub(crate) const COST: u32 = 1;

/// What words are drawn from.
pub(crate) const SEED: [u8; 32] = [7; 32];

pub(crate) fn text_of(bytes: &[u8]) -> Option<&str> {
    match str::from_utf8(bytes) {
        Ok(text) => Some(text),
        Err(_) => None,
    }
}
