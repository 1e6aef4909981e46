//! The puts of a script that is being made.

ghost use Rattle.std.specs.Prelude.{◌≡◌, ◌==◌, ◌+◌, ◌<◌, ◌^◌, None};
ghost use Rattle.sn_generator.specs.Generated.{side_of};
ghost use Rattle.sn_generator.specs.Puts.{act_of, last_label, puts_after, with_put};

/// How many items were put, and the label of each device's last put.
#[derive(Clone, Copy)]
pub(crate) struct Puts {
    made: u64,
    of_a: Option<u64>,
    of_b: Option<u64>,
}

/// What an event does.
#[derive(Clone, Copy)]
pub(crate) enum Act {
    Put,
    /// An edit of the item of this label.
    Edit(u64),
    Sync,
    /// A sync of which the first reply is lost.
    LosingSync,
}

/// Whether an event that draws this number is device A's. Else it is B's.
pub(crate) fn is_of_a(drawn: u32) -> bool
    ensures { result ≡ (side_of drawn == 0) }
{
    drawn / 8 % 2 == 0
}

impl Puts {
    /// No puts.
    pub(crate) fn new() -> Puts
        ensures { result ≡ record { made = 0; of_a = None; of_b = None } }
    {
        Puts {
            made: 0,
            of_a: None,
            of_b: None,
        }
    }

    // The label of the last put of the device whose event draws this number.
    fn last(&self, drawn: u32) -> Option<u64>
        ensures { result ≡ last_label self.now drawn }
    {
        if is_of_a(drawn) { self.of_a } else { self.of_b }
    }

    /// What the event does that draws this number.
    pub(crate) fn act(&self, drawn: u32) -> Act
        ensures { result ≡ act_of self.now drawn }
    {
        let kind = drawn % 8;
        if kind <= 3 {
            return Act::Put;
        }
        if kind == 4 {
            return match self.last(drawn) {
                Some(label) => Act::Edit(label),
                None => Act::Put,
            };
        }
        if kind == 7 {
            Act::LosingSync
        } else {
            Act::Sync
        }
    }

    /// Notes what the event does that draws this number.
    pub(crate) fn note(&mut self, act: Act, drawn: u32)
        requires { self.old.made < 2 ^ 63 }
        ensures { self.new ≡ puts_after act self.old drawn }
    {
        if let Act::Put = act {
            self.add(drawn);
        }
    }

    // Notes one more put, of the device whose event draws this number.
    fn add(&mut self, drawn: u32)
        requires { self.old.made < 2 ^ 63 }
        ensures { self.new ≡ with_put self.old drawn }
    {
        self.made += 1;
        if is_of_a(drawn) {
            self.of_a = Some(self.made);
        } else {
            self.of_b = Some(self.made);
        }
    }
}
