// What the branches of openings weigh.
ghost use Rattle.std.specs.Prelude.{◌≡◌, ◌<◌, [], replicate, slice_index_or};
ghost use Rattle.workload.specs.Weights.{weighed, Heaviest, Room, Added};

use crate::length::greatest;
use table::records::Region;

// The weight of each branch of an opening, in the row that has the opening's number.
#[derive(Drop)]
pub(crate) struct Weights {
    rows: [[u64; 8]; 64],
}

impl Weights {
    // Nothing is weighed yet.
    pub(crate) fn new() -> Weights
        ensures { result.rows ≡ replicate 64 (replicate 8 0) }
    {
        Weights { rows: [[0; 8]; 64] }
    }

    // The first of the heaviest branches of an opening, and its weight.
    pub(crate) fn heaviest(&self, opening: usize) -> (usize, u64)
        requires { opening < 64 }
        ensures first { Heaviest (slice_index_or self.now.rows opening []) result.0 }
        ensures weight { result.1 ≡ weighed self.now.rows opening result.0 }
    {
        let row = &self.rows[opening];
        let most = greatest(row);
        let branch = row.iter().position(|weight| *weight == most).unwrap_or(0);
        (branch, most)
    }

    // Adds a node's gain to the branch in which it lies.
    pub(crate) fn add(&mut self, region: Region, gain: u64)
        requires { Room self.old.rows region gain }
        ensures { Added self.old.rows region gain self.new.rows }
    {
        if let Region::Branch { home, branch } = region {
            self.rows[usize::from(home)][usize::from(branch)] += gain;
        }
    }
}
