//! Writing a request.
ghost use Rattle.std.specs.Prelude.{◌≡◌, ◌++◌, length, IfOk, OnOk};
ghost use Rattle.std.specs.List.{flat_map};
ghost use Rattle.std.specs.Str.{bytes_eq};
ghost use Rattle.std.specs.Prelude.{codes};
ghost use Rattle.sn_http.specs.Lines.{line, content_type, content_length, only_if};
ghost use Rattle.sn_http.specs.Requests.{credentials, request_line, request};

use itoa::Buffer;
use std::alloc::{AllocError, Global};

/// The bytes of a request. An empty token writes no Authorization. The connection is to close behind the answer.
pub fn write_request(
    alloc: Global,
    method: &str,
    target: &str,
    host: &str,
    token: &[u8],
    body: &[u8],
) -> Result<Vec<u8>, AllocError>
    ensures { IfOk result (λ bytes. bytes.items ≡ request method.now target.now host.now token.now body.now) }
{
    let mut out = Vec::new(alloc);
    push_request_line(&mut out, method, target)?;
    push_line(&mut out, b"Host", host.as_bytes())?;
    push_type(&mut out, method)?;
    push_credentials(&mut out, token)?;
    push_length(&mut out, body.len())?;
    push_line(&mut out, b"Connection", b"close")?;
    out.extend_from_slice(b"\r\n")?;
    out.extend_from_slice(body)?;
    Ok(out)
}

fn push_request_line(out: &mut Vec<u8>, method: &str, target: &str) -> Result<(), AllocError>
    ensures { OnOk result (out.new.items ≡ out.old.items ++ request_line method.now target.now) }
{
    out.extend_from_slice(method.as_bytes())?;
    out.extend_from_slice(b" ")?;
    out.extend_from_slice(target.as_bytes())?;
    out.extend_from_slice(b" HTTP/1.1\r\n")?;
    Ok(())
}

fn push_line(out: &mut Vec<u8>, name: &[u8], value: &[u8]) -> Result<(), AllocError>
    ensures { OnOk result (out.new.items ≡ out.old.items ++ line (name.now, value.now)) }
{
    out.extend_from_slice(name)?;
    out.extend_from_slice(b": ")?;
    out.extend_from_slice(value)?;
    out.extend_from_slice(b"\r\n")
}

fn push_type(out: &mut Vec<u8>, method: &str) -> Result<(), AllocError>
    ensures { OnOk result (out.new.items ≡ out.old.items ++ flat_map line (only_if (bytes_eq method.now (codes "POST")) content_type)) }
{
    if method == "POST" {
        push_line(out, b"Content-Type", b"application/json")
    } else {
        Ok(())
    }
}

fn push_credentials(out: &mut Vec<u8>, token: &[u8]) -> Result<(), AllocError>
    ensures { OnOk result (out.new.items ≡ out.old.items ++ flat_map line (credentials token.now)) }
{
    if token.is_empty() {
        return Ok(());
    }
    out.extend_from_slice(b"Authorization: Bearer ")?;
    out.extend_from_slice(token)?;
    out.extend_from_slice(b"\r\n")?;
    Ok(())
}

fn push_length(out: &mut Vec<u8>, size: usize) -> Result<(), AllocError>
    ensures { OnOk result (out.new.items ≡ out.old.items ++ flat_map line (content_length size)) }
{
    let mut buffer = Buffer::new();
    push_line(out, b"Content-Length", buffer.format(size).as_bytes())
}
