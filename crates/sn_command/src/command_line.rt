// The command lines.
ghost use Rattle.std.specs.Fmt.{decimal};
ghost use Rattle.std.specs.Prelude.{◌≡◌, ◌≢◌, ℕ, List, codes, Some, IsSome, IfSome, IfNone, IfOk, IfErr, IsTrue, ◌↔◌, ◌<◌, ◌≤◌, ◌^◌, length};
ghost use Rattle.sn_string.specs.Bounds.{IsIdentifier, IsCost, IsNonce};
ghost use Rattle.sn_command.specs.CommandLine.{SealLine, OpenLine, GenLine, ServeLine, IsSealLine, IsOpenLine, IsGenLine, IsServeLine, GivesItem, GivesParams};
ghost use Rattle.sn_command.specs.Commands.{IsCommand, IsLineError};
ghost use Rattle.sn_command.specs.Given.{IsGivenBy, IsNotTaken};
ghost use Rattle.sn_command.specs.Syntax.{value_of};
ghost use Rattle.sn_command.specs.Words.{texts};

use crate::cost::cost_option;
use crate::device_line::{DeviceOptions, device_options};
use crate::given::{Given, NotTaken, read_words, value};
use crate::number::{positive_number, whole_number};
use clap::Error;
use sn_string::{key_bytes, uuid_of};
use std::alloc::Global;
use uuid::Uuid;

/// The greatest number that a script is made from.
const MOST_NUMBER: u32 = 65_536;

/// The most events that a script is made of.
const MOST_EVENTS: u32 = 100_000;

/// The most requests of one run of the server.
const MOST_REQUESTS: u32 = 1_000_000;

/// An item: its uuid, and its key, of which the first half encrypts and the second authenticates.
#[derive(Drop)]
pub struct ItemOptions {
    pub uuid: Uuid,
    pub key: [u8; 64],
}

/// Auth parameters, within their bounds.
#[derive(Drop)]
pub struct ParamsOptions<'a> {
    pub identifier: &'a str,
    pub cost: u32,
    pub nonce: &'a str,
}

/// The number that a script is made from, 0 to 65536, and how many events are to be made, 1 to 100000.
#[derive(Drop)]
pub struct GenOptions {
    pub number: u32,
    pub count: u32,
}

/// A store, the number of a port, at 0 one that the system chooses, and how many requests are to be served.
#[derive(Drop)]
pub struct ServeOptions<'a> {
    pub store: &'a str,
    pub port: u16,
    pub requests: u64,
}

/// A command with its options, or the text that the words ask for.
#[derive(Drop)]
pub enum Command<'a> {
    Seal(ItemOptions, ParamsOptions<'a>),
    Open(ItemOptions),
    Show,
    Replay,
    Gen(GenOptions),
    Serve(ServeOptions<'a>),
    Device(DeviceOptions<'a>),
    Help(Error),
    Version(Error),
}

/// Why words spell no command.
#[derive(Debug, Drop)]
pub enum LineError {
    /// They are no command line, or a value is out of its form or its bounds.
    Usage,
    Memory,
}

/// The command that the words spell.
pub fn command_of<'a>(alloc: Global, words: &'a [String]) -> Result<Command<'a>, LineError>
    ensures command { IfOk result (IsCommand (texts words.now)) }
    ensures none { IfErr result (IsLineError (texts words.now)) }
{
    match read_words(alloc, words) {
        Ok(given) => match given_command(&given) {
            Some(command) => Ok(command),
            None => Err(LineError::Usage),
        },
        Err(error) => asked(error),
    }
}

// What words that give no command ask for, or why they are refused.
fn asked<'a>(error: NotTaken) -> Result<Command<'a>, LineError>
    ensures command { (words : List (List ℕ)) → IsNotTaken words error → IfOk result (IsCommand words) }
    ensures none { (words : List (List ℕ)) → IsNotTaken words error → IfErr result (IsLineError words) }
{
    match error {
        NotTaken::Help(text) => Ok(Command::Help(text)),
        NotTaken::Version(text) => Ok(Command::Version(text)),
        NotTaken::Fault => Err(LineError::Usage),
        NotTaken::Memory => Err(LineError::Memory),
    }
}

fn given_command<'a>(given: &Given<'a>) -> Option<Command<'a>>
    ensures some { IfSome result (λ command. (words : List (List ℕ)) → IsGivenBy words given.now → IsCommand words command) }
    ensures none { IfNone result ((words : List (List ℕ)) → IsGivenBy words given.now → IsLineError words LineError.Usage) }
{
    match given.command {
        "seal" => seal_command(given),
        "open" => open_command(given),
        "show" => Some(Command::Show),
        "replay" => Some(Command::Replay),
        "gen" => gen_command(given),
        "serve" => serve_command(given),
        _ => device_line(given),
    }
}

fn seal_command<'a>(given: &Given<'a>) -> Option<Command<'a>>
    requires { given.now.command.now ≡ codes "seal" }
    ensures some { IfSome result (λ command. (words : List (List ℕ)) → IsGivenBy words given.now → IsCommand words command) }
    ensures none { IfNone result ((words : List (List ℕ)) → IsGivenBy words given.now → (line : SealLine) → ¬ (IsSealLine words line)) }
{
    match item_options(given) {
        None => None,
        Some(item) => match params_options(given) {
            None => None,
            Some(params) => Some(Command::Seal(item, params)),
        },
    }
}

fn open_command<'a>(given: &Given<'a>) -> Option<Command<'a>>
    requires { given.now.command.now ≡ codes "open" }
    ensures some { IfSome result (λ command. (words : List (List ℕ)) → IsGivenBy words given.now → IsCommand words command) }
    ensures none { IfNone result ((words : List (List ℕ)) → IsGivenBy words given.now → (line : OpenLine) → ¬ (IsOpenLine words line)) }
{
    match item_options(given) {
        Some(item) => Some(Command::Open(item)),
        None => None,
    }
}

fn gen_command<'a>(given: &Given<'a>) -> Option<Command<'a>>
    requires { given.now.command.now ≡ codes "gen" }
    ensures some { IfSome result (λ command. (words : List (List ℕ)) → IsGivenBy words given.now → IsCommand words command) }
    ensures none { IfNone result ((words : List (List ℕ)) → IsGivenBy words given.now → (line : GenLine) → ¬ (IsGenLine words line)) }
{
    let Some(number) = number_option(given) else {
        return None;
    };
    let Some(count) = count_option(given) else {
        return None;
    };
    Some(Command::Gen(GenOptions { number, count }))
}

fn serve_command<'a>(given: &Given<'a>) -> Option<Command<'a>>
    requires { given.now.command.now ≡ codes "serve" }
    ensures some { IfSome result (λ command. (words : List (List ℕ)) → IsGivenBy words given.now → IsCommand words command) }
    ensures none { IfNone result ((words : List (List ℕ)) → IsGivenBy words given.now → (line : ServeLine) → ¬ (IsServeLine words line)) }
{
    let Some(store) = value(given, "store") else {
        return None;
    };
    let Some(port) = port_option(given) else {
        return None;
    };
    let Some(requests) = requests_option(given) else {
        return None;
    };
    Some(Command::Serve(ServeOptions {
        store,
        port,
        requests,
    }))
}

fn device_line<'a>(given: &Given<'a>) -> Option<Command<'a>>
    requires not_seal { given.now.command.now ≢ codes "seal" }
    requires not_open { given.now.command.now ≢ codes "open" }
    requires not_show { given.now.command.now ≢ codes "show" }
    requires not_replay { given.now.command.now ≢ codes "replay" }
    requires not_gen { given.now.command.now ≢ codes "gen" }
    requires not_serve { given.now.command.now ≢ codes "serve" }
    ensures some { IfSome result (λ command. (words : List (List ℕ)) → IsGivenBy words given.now → IsCommand words command) }
    ensures none { IfNone result ((words : List (List ℕ)) → IsGivenBy words given.now → IsLineError words LineError.Usage) }
{
    match device_options(given) {
        Some(options) => Some(Command::Device(options)),
        None => None,
    }
}

fn number_option(given: &Given<'_>) -> Option<u32>
    ensures some { IfSome result (λ number. (number ≤ 65536)
        × ((words : List (List ℕ)) → IsGivenBy words given.now → value_of words (codes "number") ≡ Some (decimal number))) }
    ensures none { IfNone result ((words : List (List ℕ)) (number : ℕ) → IsGivenBy words given.now → number ≤ 65536
        → ¬ (value_of words (codes "number") ≡ Some (decimal number))) }
{
    let Some(text) = value(given, "number") else {
        return None;
    };
    let Some(number) = whole_number(text) else {
        return None;
    };
    if number <= MOST_NUMBER {
        Some(number)
    } else {
        None
    }
}

fn count_option(given: &Given<'_>) -> Option<u32>
    ensures some { IfSome result (λ count. (1 ≤ count) × (count ≤ 100000)
        × ((words : List (List ℕ)) → IsGivenBy words given.now → value_of words (codes "count") ≡ Some (decimal count))) }
    ensures none { IfNone result ((words : List (List ℕ)) (count : ℕ) → IsGivenBy words given.now → 1 ≤ count → count ≤ 100000
        → ¬ (value_of words (codes "count") ≡ Some (decimal count))) }
{
    let Some(text) = value(given, "count") else {
        return None;
    };
    let Some(count) = positive_number(text) else {
        return None;
    };
    if count <= MOST_EVENTS {
        Some(count)
    } else {
        None
    }
}

fn port_option(given: &Given<'_>) -> Option<u16>
    ensures some { IfSome result (λ port. (words : List (List ℕ)) → IsGivenBy words given.now → value_of words (codes "port") ≡ Some (decimal port)) }
    ensures none { IfNone result ((words : List (List ℕ)) (port : ℕ) → IsGivenBy words given.now → port < 2 ^ 16 → ¬ (value_of words (codes "port") ≡ Some (decimal port))) }
{
    let Some(text) = value(given, "port") else {
        return None;
    };
    let Some(port) = whole_number(text) else {
        return None;
    };
    if port < 65536 {
        Some(port as u16)
    } else {
        None
    }
}

fn requests_option(given: &Given<'_>) -> Option<u64>
    ensures some { IfSome result (λ requests. (1 ≤ requests) × (requests ≤ 1000000)
        × ((words : List (List ℕ)) → IsGivenBy words given.now → value_of words (codes "requests") ≡ Some (decimal requests))) }
    ensures none { IfNone result ((words : List (List ℕ)) (requests : ℕ) → IsGivenBy words given.now → 1 ≤ requests → requests ≤ 1000000
        → ¬ (value_of words (codes "requests") ≡ Some (decimal requests))) }
{
    let Some(text) = value(given, "requests") else {
        return None;
    };
    let Some(requests) = positive_number(text) else {
        return None;
    };
    if requests <= MOST_REQUESTS {
        Some(u64::from(requests))
    } else {
        None
    }
}

fn item_options(given: &Given<'_>) -> Option<ItemOptions>
    ensures some { IfSome result (λ item. (words : List (List ℕ)) → IsGivenBy words given.now → GivesItem words item.uuid item.key) }
    ensures none { IfNone result ((words : List (List ℕ)) (uuid key : List ℕ) → IsGivenBy words given.now → ¬ (GivesItem words uuid key)) }
{
    let uuid = uuid_of(value(given, "uuid")?)?;
    let key = key_bytes(value(given, "key")?)?;
    Some(ItemOptions { uuid, key })
}

fn params_options<'a>(given: &Given<'a>) -> Option<ParamsOptions<'a>>
    ensures some { IfSome result (λ params. (words : List (List ℕ)) → IsGivenBy words given.now
        → GivesParams words params.identifier.now params.cost params.nonce.now) }
    ensures none { IfNone result ((words : List (List ℕ)) (identifier nonce : List ℕ) (cost : ℕ) → IsGivenBy words given.now
        → ¬ (GivesParams words identifier cost nonce)) }
{
    let Some(identifier) = value(given, "identifier") else {
        return None;
    };
    let Some(cost) = cost_option(given) else {
        return None;
    };
    let Some(nonce) = value(given, "nonce") else {
        return None;
    };
    within_bounds(identifier, cost, nonce)
}

fn within_bounds<'a>(identifier: &'a str, cost: u32, nonce: &'a str) -> Option<ParamsOptions<'a>>
    ensures some { IfSome result (λ found. (found.identifier.now ≡ identifier.now) × (found.cost ≡ cost) × (found.nonce.now ≡ nonce.now)) }
    ensures within { IsSome result ↔ (IsIdentifier identifier.now × IsNonce nonce.now) }
{
    if fits(identifier, 254) && fits(nonce, 256) {
        Some(ParamsOptions {
            identifier,
            cost,
            nonce,
        })
    } else {
        None
    }
}

fn fits(text: &str, most: usize) -> bool
    ensures { IsTrue result ↔ ((1 ≤ length text.now) × (length text.now ≤ most)) }
{
    !text.is_empty() && text.len() <= most
}
