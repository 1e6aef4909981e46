//! Accounts' uuids and session tokens.

ghost use Rattle.std.specs.Prelude.{◌≡◌, ℕ, List, ◌<◌, ◌^◌, IfNone, IfOk, IfSome, Some};
ghost use Rattle.sn_account.specs.Sessions.{IsNoSession, IsSession, account_uuid, session_token};
ghost use Rattle.sn_account.specs.Sound.{IsSound};
ghost use Rattle.sn_account.specs.States.{IsUnmarked, state_rows};

use crate::state::State;
use sn_hmac::hmac_sha256;
use sn_string::{Text, hex_text, uuid_of, uuid_text};
use std::alloc::{AllocError, Global};
use uuid::Uuid;

// The halves of every account's uuid, and the bits of the lower one that hold the account's number.
const HIGH_BITS: u64 = 0x8000;

const LOW_BITS: u64 = 0x8000_0000_0000_0000;

const NUMBER_BITS: u64 = 0xffff_ffff_ffff;

// The length of a uuid's text.
const UUID_LEN: usize = 36;

/// The uuid of the account of this number: 00000000-0000-8000-8000- and the number in 12 hex digits.
pub fn account_uuid(number: u64) -> Uuid
    requires { number < 2 ^ 48 }
    ensures { result ≡ account_uuid number }
{
    Uuid::from_u64_pair(HIGH_BITS, LOW_BITS + number)
}

/// The session token of an account with this generation of keys.
pub(crate) fn session_token(
    alloc: Global,
    secret: &[u8; 32],
    number: u64,
    generation: u64,
) -> Result<Text, AllocError>
    requires { number < 2 ^ 48 }
    ensures { IfOk result (λ token. token ≡ session_token secret.now number generation) }
{
    let uuid = uuid_text(alloc, account_uuid(number))?;
    let signed = format!(in alloc; "{uuid}:{generation}")?;
    let mac = hex_text(alloc, &hmac_sha256(secret, signed.as_bytes()))?;
    Ok(Text::of_string(format!(in alloc; "{uuid}.{mac}")?))
}

/// The number of the account whose present token this is.
pub(crate) fn session(alloc: Global, state: &State, token: &str) -> Result<Option<u64>, AllocError>
    requires unmarked { IsUnmarked state.now }
    requires sound { IsSound (state_rows state.now) }
    ensures some { IfOk result (λ found. IfSome found (IsSession (state_rows state.now) token.now)) }
    ensures none { IfOk result (λ found. IfNone found (IsNoSession (state_rows state.now) token.now)) }
{
    let Some(store) = state.store() else {
        return Ok(None);
    };
    let Some(number) = number_in(token) else {
        return Ok(None);
    };
    let Some(account) = state.account(number) else {
        return Ok(None);
    };
    let present = session_token(alloc, &store.secret, number, account.generation)?;
    if present.as_str() == token {
        Ok(Some(number))
    } else {
        Ok(None)
    }
}

// The number in the uuid that a text begins with. Where the text is a token, its account has it.
fn number_in(text: &str) -> Option<u64>
    ensures bound { IfSome result (λ number. number < 2 ^ 48) }
    ensures token { (secret : List ℕ) (number generation : ℕ) → number < 2 ^ 48
        → text.now ≡ session_token secret number generation → result ≡ Some number }
{
    let (front, _) = text.split_at_checked(UUID_LEN)?;
    Some(number_of(uuid_of(front)?))
}

// The number in the last six bytes.
fn number_of(uuid: Uuid) -> u64
    ensures bound { result < 2 ^ 48 }
    ensures number { (number : ℕ) → number < 2 ^ 48 → uuid ≡ account_uuid number → result ≡ number }
{
    let (_, low) = uuid.as_u64_pair();
    low & NUMBER_BITS
}
