//! What is lost of an event's exchanges, by the words of its line.

ghost use Rattle.std.specs.Prelude.{◌≡◌};
ghost use Rattle.sn_course.specs.Lines.{least, losses_of, losses_with, with_nth};

use sn_link::Losses;
use sn_script::{Fate, Ordinal};

/// The losses that the words of a line say. Of several words of one kind the least number counts.
pub(crate) fn losses_of(fates: &[Fate]) -> Losses
    ensures { result ≡ losses_of fates.now }
{
    let mut losses = Losses::none();
    'fates: for fate in fates {
        losses = losses_with(losses, *fate);
    }
    losses
}

// With one word more.
fn losses_with(losses: Losses, fate: Fate) -> Losses
    ensures { result ≡ losses_with losses fate }
{
    match fate {
        Fate::DropRequest(which) => Losses {
            request: with_nth(losses.request, which),
            ..losses
        },
        Fate::DropReply(which) => Losses {
            reply: with_nth(losses.reply, which),
            ..losses
        },
    }
}

// There is no exchange of number 0, nor of one that is too long.
fn with_nth(found: Option<u64>, which: Ordinal) -> Option<u64>
    ensures { result ≡ with_nth found which }
{
    match which {
        Ordinal::Nth(number) => {
            if number == 0 {
                found
            } else {
                least(found, number)
            }
        }
        Ordinal::Beyond => found,
    }
}

fn least(found: Option<u64>, number: u64) -> Option<u64>
    ensures { result ≡ least found number }
{
    match found {
        Some(other) => {
            if other <= number {
                Some(other)
            } else {
                Some(number)
            }
        }
        None => Some(number),
    }
}
