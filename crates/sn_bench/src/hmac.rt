//! HMAC-SHA-256.

ghost use Rattle.std.specs.Prelude.{◌≡◌, ◌+◌, ◌*◌, ◌/◌, ◌≤◌, ◌++◌, length, take, drop};
ghost use Rattle.sn_hmac.specs.Hmac.{hmac_sha256};
ghost use Rattle.sn_bench.specs.Texts.{macs_of};

use sn_hmac::{Mac256, hmac_sha256};

/// Writes the HMAC of one text.
#[unsafe(no_mangle)]
pub extern "C" fn sn_bench_hmac(key: &[u8], text: &[u8], digest: &mut [u8; 32])
    ensures { digest.new ≡ hmac_sha256 key.now text.now }
{
    *digest = hmac_sha256(key, text);
}

fn put(digests: &mut [u8], at: usize, digest: &[u8; 32])
    requires { at + 32 ≤ length digests.old }
    ensures { digests.new ≡ take at digests.old ++ (digest.now ++ drop (at + 32) digests.old) }
{
    digests[at..at + 32].copy_from_slice(digest);
}

/// Writes the HMACs of texts of 64 bytes that stand one after another, each begun with the key.
#[unsafe(no_mangle)]
#[tactic(auto, using(crate::proofs::TextLemmas::macs_more))]
pub extern "C" fn sn_bench_macs(key: &[u8], texts: &[u8], digests: &mut [u8])
    requires { 32 * (length texts.now / 64) ≡ length digests.old }
    ensures { digests.new ≡ macs_of key.now texts.now (length texts.now / 64) }
{
    'texts: for i in 0..texts.len() / 64 {
        let mut mac = Mac256::new(key);
        mac.update(&texts[64 * i..64 * i + 64]);
        put(digests, 32 * i, &mac.finish());
    }
}

/// The same, each from a copy of one that was begun with the key.
#[unsafe(no_mangle)]
#[tactic(auto, using(crate::proofs::TextLemmas::macs_more))]
pub extern "C" fn sn_bench_copied_macs(key: &[u8], texts: &[u8], digests: &mut [u8])
    requires { 32 * (length texts.now / 64) ≡ length digests.old }
    ensures { digests.new ≡ macs_of key.now texts.now (length texts.now / 64) }
{
    let begun = Mac256::new(key);
    'texts: for i in 0..texts.len() / 64 {
        let mut mac = begun.copy();
        mac.update(&texts[64 * i..64 * i + 64]);
        put(digests, 32 * i, &mac.finish());
    }
}
