// Where a head may end: only there is it worth while to parse it.
ghost use Rattle.std.specs.Prelude.{◌≡◌, ◌<◌, ◌≤◌, ◌+◌, true, false, length, take, IsTrue};
ghost use Rattle.sn_http.specs.Blanks.{IsBlank, IsLineEnd};
ghost use Rattle.sn_http.specs.Ends.{EndsBlank, EndsWithin};

/// Whether a head may end behind the first `seen` bytes.
pub(crate) fn may_end_past(bytes: &[u8], seen: usize) -> bool
    requires { seen ≤ length bytes.now }
    ensures within { result ≡ false → EndsWithin seen bytes.now }
    ensures past { IsTrue result → seen < length bytes.now }
{
    let mut at = seen;
    'ends: while at < bytes.len() {
        if ends_blank_with(bytes, at) {
            return true;
        }
        at += 1;
    }
    false
}

// Whether an empty line ends with this byte. Most bytes end no line at all.
fn ends_blank_with(bytes: &[u8], at: usize) -> bool
    requires { at < length bytes.now }
    ensures { result ≡ false → ¬ (EndsBlank (take (at + 1) bytes.now)) }
{
    bytes[at] == b'\n' && ends_blank(&bytes[..at + 1])
}

fn ends_blank(bytes: &[u8]) -> bool
    ensures { result ≡ false → ¬ (EndsBlank bytes.now) }
{
    bytes.ends_with(b"\n\n") || bytes.ends_with(b"\n\r\n")
}

/// How many bytes at the front are of line ends, where the first `from` are.
pub(crate) fn skip_blank(bytes: &[u8], from: usize) -> usize
    requires known { IsBlank from bytes.now }
    requires within { from ≤ length bytes.now }
    ensures blank { IsBlank result bytes.now }
    ensures within { result ≤ length bytes.now }
{
    let mut at = from;
    'blanks: while at < bytes.len() {
        if !is_line_end(bytes[at]) {
            return at;
        }
        at += 1;
    }
    at
}

fn is_line_end(byte: u8) -> bool
    ensures { result ≡ true → IsLineEnd byte }
{
    byte == b'\n' || byte == b'\r'
}
