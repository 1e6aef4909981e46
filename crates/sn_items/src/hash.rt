// The hash of a string's parts.
ghost use Rattle.std.specs.Prelude.{◌≡◌};
ghost use Rattle.sn_hmac.specs.Hmac.{hmac_sha256};
ghost use Rattle.sn_items.specs.Opens.{covered_text};

use sn_hmac::Mac256;

/// HMAC-SHA-256 over `003:uuid:iv:ciphertext`, taken piece by piece, so that the pieces are never joined.
pub fn hash_of_parts(
    authentication_key: &[u8; 32],
    uuid: &str,
    iv: &str,
    ciphertext: &str,
) -> [u8; 32]
    ensures { result ≡ hmac_sha256 authentication_key.now (covered_text uuid.now iv.now ciphertext.now) }
{
    let mut mac = Mac256::new(authentication_key);
    mac.update(b"003:");
    mac.update(uuid.as_bytes());
    mac.update(b":");
    mac.update(iv.as_bytes());
    mac.update(b":");
    mac.update(ciphertext.as_bytes());
    mac.finish()
}
