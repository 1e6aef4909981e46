// The texts of lines, and the losses in front of them.
ghost use Rattle.std.specs.Prelude.{◌≡◌, ◌∷◌, List, ℕ, map, IfOk, MatchOption};
ghost use Rattle.std.specs.List.{join_with_byte};
ghost use Rattle.sn_script.specs.Grammar.{IsFate, IsTextBehind};
ghost use Rattle.sn_script.specs.declared.script.Fate.{Fate};

use crate::fates::{is_fate, loss_of};
use crate::script::Fate;
use sn_string::{OwnedList, Text};
use std::alloc::{AllocError, Global};

// The words with a blank between each two.
fn joined(alloc: Global, first: &str, more: &[&str]) -> Result<Text, AllocError>
    ensures { IfOk result (λ text. text ≡ join_with_byte 32 (first.now ∷ map (λ w. w.now) more.now)) }
{
    let mut text = first.to_string(alloc)?;
    for word in more {
        text.push(' ')?;
        text.push_str(word)?;
    }
    Ok(Text::of_string(text))
}

// The text that begins with this word, which may be no fate.
fn text_from(alloc: Global, first: &str, more: &[&str]) -> Result<Option<Text>, AllocError>
    ensures { IfOk result (λ found. MatchOption found (IsFate first.now)
        (λ text. (¬ (IsFate first.now)) × (text ≡ join_with_byte 32 (first.now ∷ map (λ w. w.now) more.now)))) }
{
    if is_fate(first) {
        return Ok(None);
    }
    let text = joined(alloc, first, more)?;
    Ok(Some(text))
}

/// Losses, and the text behind them.
#[derive(Drop)]
pub struct TextBehind {
    pub fates: OwnedList<Fate>,
    pub text: Text,
}

/// As many words as say losses, and the text that the others are.
pub fn text_behind(alloc: Global, words: &[&str]) -> Result<Option<TextBehind>, AllocError>
    ensures { IfOk result (λ found. MatchOption found
        ((fates : List Fate) (text : List ℕ) → ¬ (IsTextBehind (map (λ w. w.now) words.now) fates text))
        (λ t. IsTextBehind (map (λ w. w.now) words.now) t.fates t.text)) }
{
    let mut fates = OwnedList::new(alloc);
    for (place, word) in words.iter().enumerate() {
        let Some(fate) = loss_of(word) else {
            return match text_from(alloc, word, &words[place + 1..])? {
                Some(text) => Ok(Some(TextBehind { fates, text })),
                None => Ok(None),
            };
        };
        fates.push(fate)?;
    }
    Ok(None)
}
