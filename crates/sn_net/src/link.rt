// Where requests go.
ghost use Rattle.std.specs.Prelude.{◌≡◌, ◌≤◌, ◌∷◌, [], List, ℕ, length, IfOk, OnOk, OnErr, IsErrOf};
ghost use Rattle.sn_io.specs.Causes.{Rose};
ghost use Rattle.sn_net.specs.Exchanges.{Exchange, Asking, answer_of};
ghost use Rattle.sn_net.specs.declared.link.AskError.TheVariants.{Memory};

use std::alloc::{AllocError, Global};
use thiserror::Error;

/// Why a link did not do what was asked.
#[derive(Clone, Copy, Debug, PartialEq, Eq, Error)]
pub enum AskError {
    #[error("the link failed")]
    Failed,
    #[error("out of memory")]
    Memory,
}

impl From<AllocError> for AskError {
    ghost from_gives = { λ _ e. e ≡ Memory };

    fn from(_: AllocError) -> AskError {
        AskError::Memory
    }
}

/// Where requests go.
pub trait Link {
    /// From one state to another these exchanges were made: all that it tells of them. One that tells nothing, as
    /// over a socket, has the relation that always holds.
    ghost asks: { Self → Self → List Exchange → Type 0 };

    /// The host that requests name and go to.
    ghost aimed: { Self → List ℕ };

    /// How often a call has failed.
    ghost fault_count: { Self → ℕ };

    /// How often a call has failed.
    fn faults(&self) -> u64
        ensures { result ≡ fault_count self.now };

    /// Sets the host that requests name and go to: a name or an address, and behind a colon the port's number.
    fn aim(&mut self, alloc: Global, host: &str) -> Result<(), AskError>
        ensures aimed { OnOk result (aimed self.new ≡ host.now) }
        ensures stays { OnErr result (aimed self.new ≡ aimed self.old) }
        ensures asks { asks self.old self.new [] }
        ensures fault { IsErrOf result AskError.Failed → Rose (fault_count self.old) (fault_count self.new) }
        ensures later { fault_count self.old ≤ fault_count self.new };

    /// That host.
    fn host(&self) -> &str
        ensures { result.now ≡ aimed self.now };

    /// Delivers one request, and gives the bytes of the answer, at most `room` of them.
    fn ask(&mut self, alloc: Global, request: &[u8], room: usize) -> Result<Vec<u8>, AskError>
        ensures asks { asks self.old self.new (record { host = aimed self.old; request = request.now; answer = answer_of result } ∷ []) }
        ensures room { IfOk result (λ answer. length answer.items ≤ room) }
        ensures aimed { aimed self.new ≡ aimed self.old }
        ensures fault { IsErrOf result AskError.Failed → Rose (fault_count self.old) (fault_count self.new) }
        ensures later { fault_count self.old ≤ fault_count self.new };

    /// Exchanges follow one another.
    ghost asking: { Asking Self asks };
}
