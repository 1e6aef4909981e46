// The cost that a command line gives.
ghost use Rattle.std.specs.Prelude.{ℕ, List, IfSome, IfNone};
ghost use Rattle.sn_string.specs.Bounds.{IsCost};
ghost use Rattle.sn_command.specs.Given.{IsGivenBy};
ghost use Rattle.sn_command.specs.Named.{GivesCost};

use crate::given::{Given, value};
use crate::number::positive_number;

/// The cost where no option gives one.
const USUAL_COST: u32 = 110_000;

/// The cost that the words give, or the usual one.
pub fn cost_option(given: &Given<'_>) -> Option<u32>
    ensures some { IfSome result (λ cost. IsCost cost × ((words : List (List ℕ)) → IsGivenBy words given.now → GivesCost words cost)) }
    ensures none { IfNone result ((words : List (List ℕ)) (cost : ℕ) → IsGivenBy words given.now → IsCost cost → ¬ (GivesCost words cost)) }
{
    match value(given, "cost") {
        Some(cost) => positive_number(cost),
        None => Some(USUAL_COST),
    }
}
