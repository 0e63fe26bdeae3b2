// The things that the threads of a run share.
use agc_desk::Latch;
use agc_document::Bench;

/// The things that each thread of a run is given besides the desk: how it waits, the latch, the
/// bench that is run, and the gate.
#[derive(Drop)]
pub(crate) struct Hall<'s, W, G> {
    pub(crate) rt: &'s W,
    pub(crate) latch: &'s Latch,
    pub(crate) bench: &'s Bench,
    pub(crate) gate: &'s G,
}
