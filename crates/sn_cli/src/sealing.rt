// `seal`.
ghost use Rattle.std.specs.Prelude.{◌≡◌, ◌∷◌, [], ◌++◌, ℕ, List, IfOk, string_bytes};
ghost use Rattle.std.specs.Io.KnownBytes.{Keeps};
ghost use Rattle.sn_io.specs.Causes.{Rose};
ghost use Rattle.sn_items.specs.Draws.{drawn};
ghost use Rattle.sn_items.specs.Seals.{IsSealed};
ghost use Rattle.sn_string.specs.Bounds.{IsIdentifier, IsCost, IsNonce};
ghost use Rattle.sn_string.specs.declared.params.Params.{Params};
ghost use Rattle.sn_cli.specs.Calls.{HasParams, encryption_half, authentication_half};
ghost use Rattle.sn_command.specs.Commands.{seal_line};
ghost use Rattle.sn_cli.specs.Runs.{IsSilent, SealRuns};

use crate::input::input_text;
use crate::output::write_out;
use sn_command::{ItemOptions, ParamsOptions};
use sn_io::{Seeds, Sink, Source};
use sn_items::{Words, halves, seal_owned_text};
use sn_status::Status;
use sn_string::{Params, Text};
use std::alloc::{AllocError, Global};

/// Seals the input as one 003 string and writes it with a line feed.
pub fn seal_input<I: Source, O: Sink, R: Seeds>(
    alloc: Global,
    item: &ItemOptions,
    params: &ParamsOptions,
    input: &mut I,
    out: &mut O,
    seeds: &mut R,
) -> Status
    requires params { IsIdentifier params.now.identifier.now × IsCost params.now.cost × IsNonce params.now.nonce.now }
    ensures ran { SealRuns (seal_line item.now params.now) result (I.left input.old) (I.left input.new) (O.held out.old) (O.held out.new)
        (R.given seeds.old) (R.given seeds.new) }
    ensures silent { IsSilent result → Keeps (O.held out.old) (O.held out.new) }
    ensures read { result ≡ Status.ReadFault → Rose (I.fault_count input.old) (I.fault_count input.new) }
    ensures write { result ≡ Status.WriteFault → Rose (O.fault_count out.old) (O.fault_count out.new) }
{
    let plain = match input_text(alloc, input) {
        Ok(plain) => plain,
        Err(status) => return status,
    };
    let mut words = Words::from_seed(seeds.draw());
    match sealed_line(alloc, &mut words, plain, item, params) {
        Ok(line) => write_out(out, line.as_bytes()),
        Err(AllocError) => Status::Memory,
    }
}

// The 003 string of the plain text, and a line feed, for which the string has room.
fn sealed_line(
    alloc: Global,
    words: &mut Words,
    plain: String,
    item: &ItemOptions,
    options: &ParamsOptions,
) -> Result<String, AllocError>
    requires { IsIdentifier options.now.identifier.now × IsCost options.now.cost × IsNonce options.now.nonce.now }
    ensures { IfOk result (λ line. (params : Params) × HasParams (seal_line item.now options.now) params × (text : List ℕ)
        × IsSealed (string_bytes plain) item.now.uuid (drawn 16 words.old).0 (encryption_half item.now.key) (authentication_half item.now.key) params text
        × (string_bytes line ≡ text ++ 10 ∷ [])) }
{
    let params = params_of(alloc, options)?;
    let (encryption_key, authentication_key) = halves(&item.key);
    let mut line = seal_owned_text(
        alloc,
        words,
        plain,
        item.uuid,
        &encryption_key,
        &authentication_key,
        &params,
    )?;
    line.push('\n')?;
    Ok(line)
}

fn params_of(alloc: Global, options: &ParamsOptions) -> Result<Params, AllocError>
    requires { IsIdentifier options.now.identifier.now × IsCost options.now.cost × IsNonce options.now.nonce.now }
    ensures { IfOk result (λ params. (params.identifier ≡ options.now.identifier.now) × (params.pw_cost ≡ options.now.cost)
        × (params.pw_nonce ≡ options.now.nonce.now)) }
{
    let identifier = Text::of(alloc, options.identifier)?;
    let pw_nonce = Text::of(alloc, options.nonce)?;
    Ok(Params {
        identifier,
        pw_cost: options.cost,
        pw_nonce,
    })
}
