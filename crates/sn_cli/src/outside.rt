// The system's seed as the program's. It tells nothing of its content.
ghost use Rattle.std.specs.Prelude.{◌≡◌, None};

use sn_io::Seeds;

/// A seed that was drawn before the run.
#[derive(Drop)]
pub struct DrawnSeed {
    seed: [u8; 32],
}

impl DrawnSeed {
    pub fn new(seed: [u8; 32]) -> DrawnSeed {
        DrawnSeed { seed }
    }
}

impl Seeds for DrawnSeed {
    ghost given = { λ _. None };

    fn draw(&mut self) -> [u8; 32] {
        self.seed
    }
}
