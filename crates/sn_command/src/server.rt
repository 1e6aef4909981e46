// The server of a command line.
ghost use Rattle.std.specs.Prelude.{◌≡◌, ◌↔◌, ◌∷◌, ◌++◌, ℕ, List, IfNone, IfSome, IsTrue};
ghost use Rattle.std.specs.List.{list_all};
ghost use Rattle.sn_command.specs.Servers.{IsHost, IsPortNumber, IsServer, is_host_byte};

use crate::number::positive_number;

/// Whether the text is a name or an address of 1 to 253 letters, digits, dots and hyphens, a colon, and a port's
/// number from 1 to 65535.
pub fn is_server(text: &str) -> bool
    ensures { IsTrue result ↔ IsServer text.now }
{
    match cut(text) {
        Some((host, port)) => is_host(host) && is_port_number(port),
        None => false,
    }
}

// What stands before the first colon, and what behind it.
fn cut(text: &str) -> Option<(&str, &str)>
    ensures some { IfSome result (λ parts. text.now ≡ parts.0.now ++ 58 ∷ parts.1.now) }
    ensures one { IfSome result (λ parts. (host port : List ℕ) → IsHost host → text.now ≡ host ++ 58 ∷ port → (parts.0.now ≡ host) × (parts.1.now ≡ port)) }
    ensures none { IfNone result ((host port : List ℕ) → IsHost host → ¬ (text.now ≡ host ++ 58 ∷ port)) }
{
    text.split_once(':')
}

fn is_host(host: &str) -> bool
    ensures { IsTrue result ↔ IsHost host.now }
{
    1 <= host.len() && host.len() <= 253 && all_host_bytes(host.as_bytes())
}

fn all_host_bytes(host: &[u8]) -> bool
    ensures { result ≡ list_all is_host_byte host.now }
{
    host.iter().all(|&c| is_host_byte(c))
}

fn is_host_byte(c: u8) -> bool
    ensures { result ≡ is_host_byte c }
{
    c == b'-'
        || c == b'.'
        || (b'0' <= c && c <= b'9')
        || (b'A' <= c && c <= b'Z')
        || (b'a' <= c && c <= b'z')
}

// Whether the text is a decimal from 1 to 65535, without a zero in front.
fn is_port_number(text: &str) -> bool
    ensures { IsTrue result ↔ IsPortNumber text.now }
{
    match positive_number(text) {
        Some(port) => port < 65536,
        None => false,
    }
}
