// The system's clock.
ghost use Rattle.std.specs.Prelude.{None};

use sn_net::Clock;
use std::rt;
use std::time::{SystemTime, UNIX_EPOCH};

/// The system's clock. Where it can't be read, or stands before 1970, it gives 0.
#[derive(Drop)]
pub struct SystemClock<'a, R: rt::Clock> {
    system: &'a R,
}

impl<'a, R: rt::Clock> SystemClock<'a, R> {
    pub fn new(system: &'a R) -> SystemClock<'a, R> {
        SystemClock { system }
    }
}

impl<R: rt::Clock> Clock for SystemClock<'_, R> {
    ghost given = { λ _. None };

    fn now(&mut self) -> u64 {
        let Ok(time) = SystemTime::now(self.system) else {
            return 0;
        };
        let Ok(since) = time.duration_since(UNIX_EPOCH) else {
            return 0;
        };
        u64::try_from(since.as_micros()).unwrap_or(u64::MAX)
    }
}
