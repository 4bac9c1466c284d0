//! How long requests took.

use std::alloc::{AllocError, Global};

/// How many classes there are for each power of two.
const CLASSES: u64 = 128;
/// How many classes there are in all: those of 2^7 to 2^63, and those below.
const ALL: usize = 58 * 128;

/// How long requests took: how many there are in each class of nanoseconds. A class is no longer than the
/// 128th part of the times in it, so it takes as much memory for many requests as for few.
#[derive(Drop)]
pub struct Delays {
    counts: Vec<u64>,
    all: u64,
}

impl Delays {
    /// No request. It takes 59,392 bytes of memory.
    pub fn new(alloc: Global) -> Result<Delays, AllocError> {
        Ok(Delays {
            counts: vec![in alloc; 0; ALL]?,
            all: 0,
        })
    }

    /// Counts a request that took this many nanoseconds.
    pub fn add(&mut self, nanoseconds: u64) {
        if let Some(count) = self.counts.get_mut(class_of(nanoseconds)) {
            *count = count.saturating_add(1);
            self.all = self.all.saturating_add(1);
        }
    }

    /// The time that this part of a hundred of the requests did not pass, to within its 128th part;
    /// nothing where there is none.
    pub fn percentile(&self, percent: u64) -> Option<u64> {
        if self.all == 0 {
            return None;
        }
        // That many are passed, rounded up.
        let due = (u128::from(self.all) * u128::from(percent)).div_ceil(100);
        let mut passed: u128 = 0;
        for (class, count) in self.counts.iter().enumerate() {
            passed = passed.saturating_add(u128::from(*count));
            if passed >= due && *count > 0 {
                return Some(least_of(class));
            }
        }
        None
    }
}

// The class of a time.
fn class_of(nanoseconds: u64) -> usize {
    if nanoseconds < CLASSES {
        return nanoseconds as usize;
    }
    // Shifted so far it is 128 to 255.
    let shift = 56_u32.saturating_sub(nanoseconds.leading_zeros());
    let part = nanoseconds.checked_shr(shift).unwrap_or(0) % CLASSES;
    ((u64::from(shift) + 1) * CLASSES + part) as usize
}

// The least time of a class.
fn least_of(class: usize) -> u64 {
    let class = class as u64;
    if class < CLASSES {
        return class;
    }
    let shift = (class / CLASSES).saturating_sub(1).min(63) as u32;
    let part = class % CLASSES;
    (CLASSES + part).checked_shl(shift).unwrap_or(u64::MAX)
}
