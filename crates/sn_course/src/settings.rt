//! What a script sets.

/// What the lines of settings have set.
#[derive(Clone, Copy, Debug)]
pub struct Settings {
    /// What all is drawn from, with a line's number mixed in.
    pub seed: [u8; 32],
    /// The cost of key sets that are made.
    pub cost: u32,
    /// The server's clock, in microseconds since 1970.
    pub clock: u64,
}
