// Where connections come.
ghost use Rattle.std.specs.Prelude.{◌≡◌, ◌≢◌, ◌≤◌, ◌∷◌, [], List, ℕ, IfOk, OnOk, OnErr};
ghost use Rattle.sn_io.specs.Causes.{CountsFailure};
ghost use Rattle.sn_net.specs.Connections.{Ends, Event, accepted, ended, Going};

use sn_io::{Failed, Sink, Source};

/// Where connections come, one after another. Each is taken, served and ended.
pub trait Port {
    /// Where a connection's bytes come from.
    type In: Source;

    /// Where the answers go.
    type Out: Sink;

    /// From one state to another these connections were accepted and ended: all that it tells of them. One that
    /// tells nothing, as of sockets, has the relation that always holds.
    ghost goes: { Self → Self → List Event → Type 0 };

    /// The number of the port; before it is bound, any.
    ghost bound: { Self → ℕ };

    /// A connection was accepted and may be ended.
    ghost may_end: { Self → Type 0 };

    /// How often a call has failed.
    ghost fault_count: { Self → ℕ };

    /// How often a call has failed.
    fn faults(&self) -> u64
        ensures { result ≡ fault_count self.now };

    /// Begins to listen at the port of this number; at 0 the system chooses one.
    fn bind(&mut self, number: u16) -> Result<(), Failed>
        ensures bound { OnOk result (number ≢ 0 → bound self.new ≡ number) }
        ensures goes { goes self.old self.new [] }
        ensures cause { CountsFailure (fault_count self.old) (fault_count self.new) result };

    /// The number of the port.
    fn number(&self) -> u16
        ensures { result ≡ bound self.now };

    /// Waits for a connection and takes it.
    fn accept(&mut self) -> Result<(Self::In, Self::Out), Failed>
        ensures accepted { IfOk result (λ ends. goes self.old self.new (accepted (record {
          left = Self.In.left ends.0;
          held = Self.Out.held ends.1;
          reads = Self.In.fault_count ends.0;
          writes = Self.Out.fault_count ends.1;
        }) ∷ [])) }
        ensures none { OnErr result (goes self.old self.new []) }
        ensures out { OnOk result (may_end self.new) }
        ensures bound { bound self.new ≡ bound self.old }
        ensures cause { CountsFailure (fault_count self.old) (fault_count self.new) result };

    /// Gives back the ends of a connection that was accepted, which closes it. Takes no memory.
    fn end(&mut self, source: Self::In, sink: Self::Out)
        requires { may_end self.old }
        ensures ended { goes self.old self.new (ended (record {
          left = Self.In.left source;
          held = Self.Out.held sink;
          reads = Self.In.fault_count source;
          writes = Self.Out.fault_count sink;
        }) ∷ []) }
        ensures bound { bound self.new ≡ bound self.old }
        ensures faults { fault_count self.new ≡ fault_count self.old };

    /// Connections follow one another.
    ghost going: { Going Self goes };
}
