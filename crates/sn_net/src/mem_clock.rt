// A clock in memory.
ghost use Rattle.std.specs.Prelude.{◌≡◌};
ghost use Rattle.sn_net.specs.Times.{time_at};

use crate::Clock;

/// Gives the moments that it was made with, in turn, and then 0.
#[derive(Debug, Drop)]
pub struct MemClock {
    times: Vec<u64>,
    given: u64,
}

impl MemClock {
    ghost use Rattle.sn_net.specs.Memory.{clock_times, clock_count};

    /// Gives these moments first.
    pub fn new(times: Vec<u64>) -> MemClock
        ensures times { clock_times result ≡ times.items }
        ensures count { clock_count result ≡ 0 }
    {
        MemClock { times, given: 0 }
    }
}

impl Clock for MemClock {
    ghost use Rattle.sn_io.specs.Causes.{next_count};
    ghost use Rattle.sn_io.specs.Streams.{Gains};
    ghost use Rattle.sn_net.specs.Memory.{clock_times, clock_count, clock_given};

    ghost given = { clock_given };

    fn now(&mut self) -> u64
        ensures gains { Gains (clock_given self.old) (clock_given self.new) result }
        ensures value { result ≡ time_at (clock_times self.old) (clock_count self.old) }
        ensures count { clock_count self.new ≡ next_count (clock_count self.old) }
        ensures times { clock_times self.new ≡ clock_times self.old }
    {
        let now = time_of(&self.times, self.given);
        self.given = self.given.saturating_add(1);
        now
    }
}

// The moment of this number, from 0.
fn time_of(times: &[u64], number: u64) -> u64
    ensures { result ≡ time_at times.now number }
{
    match times.get(number as usize) {
        Some(time) => *time,
        None => 0,
    }
}
