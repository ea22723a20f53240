// What a run counts: the histories and their calls, what was compared of them, and the comparisons, made and failed.
use std::num::Saturating;

type Count = Saturating<u32>;

#[derive(Clone, Copy, Default)]
pub struct Counts {
    pub histories: Count,
    pub accepted: Count,
    // growths refused by number n, at n
    pub refused: [Count; 32],
    // the most that a table had
    pub intervals: u32,
    pub buckets: Count,
    pub bins: Count,
    pub rows: Count,
    pub listed: Count,
    pub files: Count,
    pub lines: Count,
    pub compared: Count,
    pub failed: Count,
}

impl Counts {
    // One comparison.
    pub fn same<T: PartialEq + Drop>(&mut self, seen: T, right: T) {
        self.holds(seen == right);
    }

    // One comparison, whose outcome is known.
    pub fn holds(&mut self, equal: bool) {
        self.compared += 1;
        if !equal {
            self.failed += 1;
        }
    }

    pub fn refused_by(&mut self, refusal: u32) {
        if let Some(count) = self.refused.get_mut(refusal as usize) {
            *count += 1;
        }
    }
}
