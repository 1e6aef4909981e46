//! The fields of a head (RFC 9110, 5), by where their names and values are.
ghost use Rattle.std.specs.Prelude.{◌≡◌, ◌≤◌, length, map, All};
ghost use Rattle.std.specs.Option.{option_copied};
ghost use Rattle.httparse.specs.Spans.{IsHeaderWithin, header_bytes};
ghost use Rattle.sn_http.specs.Fields.{is_word, values_of, first_of};

use httparse::spans::HeaderSpan;

/// Whether both are the same word, whatever the case of their letters.
pub(crate) fn is_word(word: &[u8], other: &[u8]) -> bool
    ensures { result ≡ is_word word.now other.now }
{
    other.eq_ignore_ascii_case(word)
}

/// The value of the first field of this name.
pub(crate) fn first_value<'b>(
    name: &[u8],
    bytes: &'b [u8],
    headers: &[HeaderSpan],
) -> Option<&'b [u8]>
    requires { All (IsHeaderWithin (length bytes.now)) headers.now }
    ensures { option_copied result ≡ first_of (values_of name.now (map (header_bytes bytes.now) headers.now)) }
{
    for header in headers {
        if is_word(name, header.name.of(bytes)) {
            return Some(header.value.of(bytes));
        }
    }
    None
}
