// The number of a bench's requests.
use crate::walk::Walk;
use agc_document::Bench;

/// The number of a bench's requests, up to the greatest number of 64 bits, and whether they have
/// more than one source: the script, workers, lines.
#[derive(Clone, Copy)]
pub struct RequestCount {
    pub requests: u64,
    pub is_shared: bool,
}

/// Counts the requests of a bench.
pub fn count_requests(bench: &Bench) -> RequestCount {
    let mut requests: u64 = 0;
    let mut last = None;
    let mut is_shared = false;
    let mut walk = Walk::new(bench);
    while walk.advance() {
        let count = walk.requests().len() as u64;
        if count > 0 {
            requests = requests.saturating_add(count);
            let source = Some(walk.source());
            is_shared = is_shared || (last.is_some() && last != source);
            last = source;
        }
    }
    RequestCount {
        requests,
        is_shared,
    }
}
