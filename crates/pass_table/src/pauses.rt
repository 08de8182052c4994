//! The pause between two tries that were busy.

use std::thread;

/// The most times that the processor is given up between two tries.
const MOST_YIELDS: u32 = 64;

/// Gives up the processor so many times, and says how many times to do so after the next busy try: twice as
/// many, up to 64. Begin with 1. Whoever is in the way then goes on alone for a while, and the shared words stay
/// with it. The doubling is that of exponential backoff (Anderson 1990).
#[inline]
pub fn pause(yields: u32) -> u32 {
    for _ in 0..yields {
        thread::yield_now();
    }
    yields.saturating_mul(2).min(MOST_YIELDS)
}
