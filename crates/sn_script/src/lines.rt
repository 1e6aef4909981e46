// Single lines.
ghost use Rattle.std.specs.Prelude.{◌≡◌, ◌<◌, ◌∷◌, ◌↔◌, List, ℕ, codes, map, MatchOption, IfOk, IsTrue};
ghost use Rattle.sn_script.specs.Grammar.{parts, IsLine, IsReading};
ghost use Rattle.sn_script.specs.Scripts.{IsLineAt, MayStandAt};
ghost use Rattle.sn_script.specs.declared.script.Line.{Line};

use crate::commands::{
    clock_line, cost_line, delete_line, edit_line, late_line, passwd_line, put_line, register_line,
    seed_line, show_line, sign_in_line, sync_line,
};
use crate::script::Line;
use std::alloc::{AllocError, Global};

fn words_of<'a>(alloc: Global, text: &'a str) -> Result<Vec<&'a str>, AllocError>
    ensures { IfOk result (λ words. map (λ w. w.now) words.items ≡ parts 32 text.now) }
{
    text.split(' ').collect(alloc)
}

// The line of an item, or of a request that comes late, where the command is none of the others.
fn item_line(alloc: Global, command: &str, rest: &[&str]) -> Result<Option<Line>, AllocError>
    requires no_seed { ¬ (command.now ≡ codes "seed") }
    requires no_cost { ¬ (command.now ≡ codes "cost") }
    requires no_clock { ¬ (command.now ≡ codes "clock") }
    requires no_show { ¬ (command.now ≡ codes "show") }
    requires no_register { ¬ (command.now ≡ codes "register") }
    requires no_sign_in { ¬ (command.now ≡ codes "signin") }
    requires no_sync { ¬ (command.now ≡ codes "sync") }
    requires no_passwd { ¬ (command.now ≡ codes "passwd") }
    ensures { IfOk result (IsReading (command.now ∷ map (λ w. w.now) rest.now)) }
{
    match command {
        "put" => put_line(alloc, rest),
        "edit" => edit_line(alloc, rest),
        "del" => delete_line(alloc, rest),
        "late" => late_line(alloc, rest),
        _ => Ok(None),
    }
}

// The line of a device, where the command sets nothing.
fn device_line(alloc: Global, command: &str, rest: &[&str]) -> Result<Option<Line>, AllocError>
    requires no_seed { ¬ (command.now ≡ codes "seed") }
    requires no_cost { ¬ (command.now ≡ codes "cost") }
    requires no_clock { ¬ (command.now ≡ codes "clock") }
    requires no_show { ¬ (command.now ≡ codes "show") }
    ensures { IfOk result (IsReading (command.now ∷ map (λ w. w.now) rest.now)) }
{
    match command {
        "register" => register_line(alloc, rest),
        "signin" => sign_in_line(alloc, rest),
        "sync" => sync_line(alloc, rest),
        "passwd" => passwd_line(alloc, rest),
        _ => item_line(alloc, command, rest),
    }
}

fn command_line(alloc: Global, command: &str, rest: &[&str]) -> Result<Option<Line>, AllocError>
    ensures { IfOk result (IsReading (command.now ∷ map (λ w. w.now) rest.now)) }
{
    match command {
        "seed" => Ok(seed_line(rest)),
        "cost" => Ok(cost_line(rest)),
        "clock" => Ok(clock_line(rest)),
        "show" => Ok(show_line(rest)),
        _ => device_line(alloc, command, rest),
    }
}

// Only the first line may be a seed.
fn is_later_seed(place: usize, command: &str) -> bool
    ensures { IsTrue result ↔ ((0 < place) × (command.now ≡ codes "seed")) }
{
    0 < place && command == "seed"
}

fn line_of(alloc: Global, place: usize, words: &[&str]) -> Result<Option<Line>, AllocError>
    ensures { IfOk result (λ found. MatchOption found
        ((l : Line) → ¬ (IsLine (map (λ w. w.now) words.now) l × MayStandAt place l))
        (λ l. IsLine (map (λ w. w.now) words.now) l × MayStandAt place l)) }
{
    match words {
        [] => Ok(None),
        [command, rest @ ..] => {
            if is_later_seed(place, command) {
                return Ok(None);
            }
            command_line(alloc, command, rest)
        }
    }
}

/// The line that the text is at this place, counted from 0, if it is one.
pub fn line_at(alloc: Global, place: usize, text: &str) -> Result<Option<Line>, AllocError>
    ensures { IfOk result (λ found. MatchOption found ((l : Line) → ¬ (IsLineAt place text.now l)) (IsLineAt place text.now)) }
{
    let words = words_of(alloc, text)?;
    line_of(alloc, place, words.as_slice())
}
