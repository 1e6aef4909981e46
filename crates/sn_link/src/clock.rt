// A clock that stands still.
ghost use Rattle.std.specs.Prelude.{◌≡◌, ◌∷◌, [], Some};

use sn_net::Clock;

/// Gives one moment, again and again. It tells what it gave, from the first moment on: so the moment that it gave a callee is
/// the one that it was made with.
#[derive(Debug, Drop)]
pub(crate) struct StillClock {
    moment: u64,
    given: u64,
}

impl StillClock {
    ghost use Rattle.sn_link.specs.Clocks.{clock_told};

    /// Stands at this moment, which it has given once.
    pub fn at(moment: u64) -> StillClock
        ensures { clock_told result ≡ Some (moment ∷ []) }
    {
        StillClock { moment, given: 1 }
    }
}

impl Clock for StillClock {
    ghost use Rattle.sn_io.specs.Streams.{Gains};
    ghost use Rattle.sn_link.specs.Clocks.{clock_told};

    ghost given = { clock_told };

    fn now(&mut self) -> u64
        ensures gains { Gains (clock_told self.old) (clock_told self.new) result }
        ensures moment { result ≡ self.old.moment }
    {
        self.given = self.given.saturating_add(1);
        self.moment
    }
}
