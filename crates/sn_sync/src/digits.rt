//! Numbers read from decimal digits.

ghost use Rattle.std.specs.Prelude.{◌≡◌, ◌↔◌, ◌^◌, ◌<◌, ◌≤◌, ℕ, List, ◌∷◌, ◌++◌, length, IfNone, IfSome, IsTrue};
ghost use Rattle.std.specs.Fmt.{decimal};
ghost use Rattle.sn_sync.specs.Plain.{IsPlain};
ghost use Rattle.sn_sync.specs.Stamps.{padded};

// The number that the digits spell, with zeros in front or without.
fn number(digits: &[u8]) -> Option<u64>
    requires { length digits.now ≤ 18 }
    ensures some { IfSome result (λ n. (n < 10 ^ length digits.now) × (digits.now ≡ padded (length digits.now) n)) }
    ensures none { IfNone result ((n : ℕ) → ¬ (digits.now ≡ padded (length digits.now) n)) }
{
    let mut number = 0;
    for &digit in digits {
        if !digit.is_ascii_digit() {
            return None;
        }
        number = number * 10 + u64::from(digit - b'0');
    }
    Some(number)
}

// Whether there are 1 to 18 digits, with no zero in front of another.
fn is_plain(digits: &[u8]) -> bool
    ensures { IsTrue result ↔ IsPlain digits.now }
{
    1 <= digits.len()
        && digits.len() <= 18
        && (digits.len() == 1 || digits.first().is_some_and(|&first| first != b'0'))
}

/// The number below 10^18 that the digits spell without a zero in front.
pub(crate) fn decimal(digits: &[u8]) -> Option<u64>
    ensures some { IfSome result (λ n. digits.now ≡ decimal n) }
    ensures none { IfNone result ((n : ℕ) → n < 10 ^ 18 → ¬ (digits.now ≡ decimal n)) }
{
    if is_plain(digits) {
        number(digits)
    } else {
        None
    }
}

/// The number that so many digits spell in front of this sign, and what follows the sign.
pub(crate) fn field(text: &[u8], width: usize, sign: u8) -> Option<(u64, &[u8])>
    requires { width ≤ 18 }
    ensures some { IfSome result (λ f. (f.0 < 10 ^ width) × (text.now ≡ padded width f.0 ++ sign ∷ f.1.now)) }
    ensures none { IfNone result ((n : ℕ) (rest : List ℕ) → ¬ (text.now ≡ padded width n ++ sign ∷ rest)) }
{
    let (digits, rest) = text.split_at_checked(width)?;
    let (&first, rest) = rest.split_first()?;
    if first == sign {
        Some((number(digits)?, rest))
    } else {
        None
    }
}
