// Where the time comes from.
ghost use Rattle.std.specs.Prelude.{List, ℕ};
ghost use Rattle.std.specs.declared.option.Option.{Option};
ghost use Rattle.sn_io.specs.Streams.{Gains};

/// Where the time comes from. It may give any number.
pub trait Clock {
    /// The moments that it gave, where it tells them.
    ghost given: { Self → Option (List ℕ) };

    /// The moment, in microseconds since 1970.
    fn now(&mut self) -> u64
        ensures { Gains (given self.old) (given self.new) result };
}
