// Numbers of a command line.
ghost use Rattle.std.specs.Prelude.{◌≡◌, ◌<◌, ◌≤◌, ◌^◌, ◌↔◌, ℕ, IfSome, IsNone, IsTrue, slice_index};
ghost use Rattle.std.specs.Fmt.{decimal};

/// The number that the text spells: decimal digits without a sign or a leading zero, from 1 up.
pub fn positive_number(text: &str) -> Option<u32>
    ensures some { IfSome result (λ n. text.now ≡ decimal n) }
    ensures positive { IfSome result (λ n. 0 < n) }
    ensures none { IsNone result → (n : ℕ) → 0 < n → n < 2 ^ 32 → ¬ (text.now ≡ decimal n) }
{
    if begins_with_nonzero_digit(text) {
        text.parse().ok()
    } else {
        None
    }
}

/// The number that the text spells: decimal digits without a sign or a leading zero.
pub fn whole_number(text: &str) -> Option<u32>
    ensures some { IfSome result (λ n. text.now ≡ decimal n) }
    ensures none { IsNone result → (n : ℕ) → n < 2 ^ 32 → ¬ (text.now ≡ decimal n) }
{
    if text == "0" {
        Some(0)
    } else {
        positive_number(text)
    }
}

fn begins_with_nonzero_digit(text: &str) -> bool
    ensures { IsTrue result ↔ ((48 < slice_index text.now 0) × (slice_index text.now 0 < 58)) }
{
    matches!(text.as_bytes().first(), Some(b'1'..=b'9'))
}
