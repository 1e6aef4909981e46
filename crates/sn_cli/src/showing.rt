// `show`.
ghost use Rattle.std.specs.Prelude.{◌≡◌, ◌+◌, ℕ, List, IfOk, length, string_bytes};
ghost use Rattle.std.specs.Io.KnownBytes.{Keeps};
ghost use Rattle.sn_io.specs.Causes.{Rose};
ghost use Rattle.sn_string.specs.Base64.{IsBase64};
ghost use Rattle.sn_string.specs.Grammar.{IsCiphertext};
ghost use Rattle.sn_string.specs.Parts.{reading_of};
ghost use Rattle.sn_cli.specs.Calls.{ShowRefuses};
ghost use Rattle.sn_cli.specs.Runs.{IsSilent, RunsOver};
ghost use Rattle.sn_cli.specs.Shown.{IsShown, json_text, salt_json, parts_lines, params_lines, shown_lines};

use crate::input::input_text;
use crate::output::write_out;
use serde_json::Value;
use sn_io::{Sink, Source};
use sn_keys::salt_text;
use sn_status::{Refusal, Status, form_refusal};
use sn_string::{Params, Parts, base64_bytes, read};
use std::alloc::{AllocError, Global};

/// Writes the parts of the input's one 003 string, a line each.
pub fn show_input<I: Source, O: Sink>(alloc: Global, input: &mut I, out: &mut O) -> Status
    ensures ran { RunsOver IsShown ShowRefuses result (I.left input.old) (I.left input.new) (O.held out.old) (O.held out.new) }
    ensures silent { IsSilent result → Keeps (O.held out.old) (O.held out.new) }
    ensures read { result ≡ Status.ReadFault → Rose (I.fault_count input.old) (I.fault_count input.new) }
    ensures write { result ≡ Status.WriteFault → Rose (O.fault_count out.old) (O.fault_count out.new) }
{
    let text = match input_text(alloc, input) {
        Ok(text) => text,
        Err(status) => return status,
    };
    match read(alloc, &text) {
        Ok(parts) => match lines(alloc, &parts) {
            Ok(lines) => write_out(out, lines.as_bytes()),
            Err(AllocError) => Status::Memory,
        },
        Err(error) => match form_refusal(error) {
            Some(refusal) => Status::Refused(Refusal::Form(refusal)),
            None => Status::Memory,
        },
    }
}

fn lines(alloc: Global, parts: &Parts<'_>) -> Result<String, AllocError>
    requires { IsCiphertext parts.now.ciphertext.now }
    ensures { IfOk result (λ lines. (bytes : List ℕ) × IsBase64 parts.now.ciphertext.now bytes
        × (string_bytes lines ≡ shown_lines (reading_of parts.now) (length bytes))) }
{
    let bytes = ciphertext_bytes(alloc, parts.ciphertext)?;
    lines_of(alloc, parts, &bytes)
}

fn ciphertext_bytes(alloc: Global, text: &str) -> Result<Vec<u8>, AllocError>
    requires { IsCiphertext text.now }
    ensures { IfOk result (λ bytes. IsBase64 text.now bytes.items) }
{
    match base64_bytes(alloc, text)? {
        Some(bytes) => Ok(bytes),
        None => unreachable!(),
    }
}

fn lines_of(alloc: Global, parts: &Parts<'_>, bytes: &[u8]) -> Result<String, AllocError>
    ensures { IfOk result (λ lines. string_bytes lines ≡ shown_lines (reading_of parts.now) (length bytes.now)) }
{
    let first = parts_lines(alloc, parts, bytes.len())?;
    let rest = params_lines(alloc, &parts.params)?;
    format!(in alloc; "{first}{rest}")
}

fn parts_lines(alloc: Global, parts: &Parts<'_>, count: usize) -> Result<String, AllocError>
    ensures { IfOk result (λ lines. string_bytes lines ≡ parts_lines (reading_of parts.now) count) }
{
    let hash = parts.hash;
    let uuid = parts.uuid;
    let iv = parts.iv;
    format!(in alloc; "version 003\nhash {hash}\nuuid {uuid}\niv {iv}\nciphertext {count}\n")
}

fn params_lines(alloc: Global, params: &Params) -> Result<String, AllocError>
    ensures { IfOk result (λ lines. string_bytes lines ≡ params_lines params.now) }
{
    let identifier = json_text(alloc, params.identifier.as_str())?;
    let cost = params.pw_cost;
    let nonce = json_text(alloc, params.pw_nonce.as_str())?;
    let salt = salt_json(alloc, params)?;
    format!(in alloc;
        "identifier {identifier}\npw_cost {cost}\npw_nonce {nonce}\nsalt-text {salt}\n"
    )
}

#[tactic(auto, unfolding(crate::specs::Shown::salt_json))]
fn salt_json(alloc: Global, params: &Params) -> Result<String, AllocError>
    ensures { IfOk result (λ json. string_bytes json ≡ salt_json params.now) }
{
    let text = salt_text(alloc, params)?;
    json_text(alloc, text.as_str())
}

/// The text as a JSON string.
#[tactic(auto, unfolding(crate::specs::Shown::json_text))]
pub fn json_text(alloc: Global, text: &str) -> Result<String, AllocError>
    ensures { IfOk result (λ json. string_bytes json ≡ json_text text.now) }
{
    Value::try_from_str(alloc, text)?.to_string(alloc)
}
