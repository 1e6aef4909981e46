//! Reads whole scripts.

ghost use Rattle.std.specs.Prelude.{◌≡◌, ◌≤◌, List, ℕ, length, map, take, IfErr, IfOk, IsSome, IfSome};
ghost use Rattle.sn_script.specs.Grammar.{parts};
ghost use Rattle.sn_script.specs.Scripts.{lines_of, without_last, IsScript, IsScriptRefusal};

use crate::lines::line_at;
use crate::script::{Script, ScriptError};
use sn_string::OwnedList;
use std::alloc::{AllocError, Global};

fn parts_of<'a>(alloc: Global, text: &'a str) -> Result<Vec<&'a str>, AllocError>
    ensures { IfOk result (λ texts. map (λ t. t.now) texts.items ≡ parts 10 text.now) }
{
    text.split('\n').collect(alloc)
}

// How many texts there are without an empty last one.
fn kept(texts: &[&str]) -> usize
    ensures within { result ≤ length texts.now }
    ensures kept { take result (map (λ t. t.now) texts.now) ≡ without_last (map (λ t. t.now) texts.now) }
{
    match texts.split_last() {
        Some((last, front)) => {
            if last.is_empty() {
                front.len()
            } else {
                texts.len()
            }
        }
        None => 0,
    }
}

fn without_empty_last<'a, 'b>(texts: &'b [&'a str]) -> &'b [&'a str]
    ensures { map (λ t. t.now) result.now ≡ without_last (map (λ t. t.now) texts.now) }
{
    &texts[..kept(texts)]
}

/// The lines of a script: UTF-8, parted by line feeds, of which one may stand at the end.
pub fn read_script(alloc: Global, text: &str) -> Result<Script, ScriptError>
    ensures ok { IfOk result (λ script. IsScript text.now script.lines) }
    ensures err { IfErr result (IsScriptRefusal text.now) }
{
    let parts = parts_of(alloc, text)?;
    let texts = without_empty_last(parts.as_slice());
    let mut lines = OwnedList::new(alloc);
    for (place, line_text) in texts.iter().enumerate() {
        let Some(line) = line_at(alloc, place, line_text)? else {
            return Err(ScriptError::Line {
                number: place as u64 + 1,
            });
        };
        lines.push(line)?;
    }
    Ok(Script { lines })
}
