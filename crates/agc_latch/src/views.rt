/// The role of a seat at the latch.
pub enum Role {
    /// The one who takes.
    Takes,
    /// A device.
    Posts,
    /// A seat that was joined to the taker's.
    Spent,
}

/// The knowledge of a seat at the latch. No value of it is made: only the rule names it.
pub struct View {
    /// Who holds the seat.
    pub role: Role,
    /// The pulses that were posted from it, per line, and for the taker those of the devices that
    /// came back.
    pub posted: [u64; 3],
    /// The pulses that were taken from it, per line.
    pub taken: [u64; 3],
    /// How often it took, per line.
    pub takes: [u64; 3],
    /// 1 for a device, for the taker how many devices came back, 0 once spent.
    pub seats: u64,
    /// How many devices were given out from it.
    pub given: u64,
}
