// Displays of how far work has come.

/// A display of how far work has come that can be counted, such as the requests of a run or the
/// runs of a sweep. It is given their number, and then told of each one that is done.
pub trait Progress {
    /// Adds to the number to be done.
    fn expect(&mut self, count: u64);

    /// Counts one more that is done.
    fn done(&mut self);
}
