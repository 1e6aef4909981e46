// Bytes that are UTF-8, as a text.
ghost use Rattle.std.specs.Prelude.{◌≡◌, IfOk, IfErr, string_bytes};
ghost use Rattle.std.specs.Str.{IsUtf8};
ghost use Rattle.sn_items.specs.Utf8.{IsValidTo};

/// The bytes as a string, or the length of their longest prefix that is UTF-8. Takes no memory.
pub fn utf8_text(bytes: Vec<u8>) -> Result<String, usize>
    ensures ok { IfOk result (λ text. IsUtf8 bytes.items × (string_bytes text ≡ bytes.items)) }
    ensures err { IfErr result (IsValidTo bytes.items) }
{
    match String::from_utf8(bytes) {
        Ok(text) => Ok(text),
        Err(error) => Err(first_fault(error.as_bytes())),
    }
}

// Where bytes that are not UTF-8 stop to be.
fn first_fault(bytes: &[u8]) -> usize
    requires { ¬ (IsUtf8 bytes.now) }
    ensures { IsValidTo bytes.now result }
{
    match str::from_utf8(bytes) {
        Ok(_) => unreachable!(),
        Err(error) => error.valid_up_to(),
    }
}
