// A server that is held, and served by.
ghost use Rattle.sn_link.specs.Deliveries.{IsSoundHeld};

use crate::delivery::{Held, delivered};
use sn_net::AskError;
use std::alloc::Global;
use std::marker::Model;

/// A server whose rows are sound, or its disk; there but while a message is served. A contract sees what is there.
#[derive(Drop)]
pub struct Keeper {
    held: Option<Held>,
}

impl Model for Keeper {
    ghost use Rattle.std.specs.Prelude.{Option};
    ghost use Rattle.sn_link.specs.Holdings.{IsSoundIn};
    ghost use Rattle.std.specs.Coded.{coded_option};
    ghost use Rattle.sn_link.specs.contracts.delivery.Held.{the_row};
    ghost use Rattle.sn_link.specs.declared.delivery.Held.{Held};

    ghost Value = { Option Held };

    ghost coded = { coded_option the_row.coded };

    ghost view = { λ keeper. keeper.held };

    ghost invariant = { λ keeper. IsSoundIn keeper.held };
}

impl Keeper {
    ghost use Rattle.std.specs.Prelude.{◌≡◌, IfSome, None, Some};
    ghost use Rattle.sn_link.specs.Deliveries.{Reaches, Standing};
    ghost use Rattle.sn_link.specs.Holdings.{GoesOn, HoldsIn, IsSoundIn};

    pub(crate) fn new(held: Held) -> Keeper
        requires { IsSoundHeld held }
        ensures { result ≡ Some held }
    {
        Keeper { held: Some(held) }
    }

    pub(crate) fn held(&self) -> Option<&Held>
        ensures some { IfSome result (λ held. self.now ≡ Some held.now) }
        ensures none { result ≡ None → self.now ≡ None }
    {
        self.held.as_ref()
    }

    pub(crate) fn into_held(self) -> Option<Held>
        ensures held { result ≡ self }
        ensures sound { IsSoundIn result }
    {
        self.held
    }

    /// Delivers bytes at a moment, and gives what is answered.
    pub(crate) fn deliver(
        &mut self,
        alloc: Global,
        now: u64,
        request: &[u8],
    ) -> Result<Vec<u8>, AskError>
        ensures reaches { (was : Standing) → HoldsIn self.old was → (next : Standing) × HoldsIn self.new next × Reaches now was request.now next result }
        ensures goes_on { GoesOn self.old self.new }
    {
        let Some(held) = self.held.take() else {
            return Err(AskError::Failed);
        };
        let (held, answer) = delivered(alloc, held, now, request);
        self.held = Some(held);
        answer
    }
}
