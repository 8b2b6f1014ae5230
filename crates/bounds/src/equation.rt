// The right side of the bounds' equation, from caps that are kept.
ghost use Rattle.std.specs.Prelude.{◌≡◌, ◌+◌, ◌^◌, ◌<◌, ◌≤◌};
ghost use Rattle.bounds.specs.Equation.{capped, work_ahead_of, bound, share_apart, interference, side};
ghost use Rattle.bounds.specs.Steps.{kept};

use crate::plan::Demand;
use crate::rise::Rise;
use order::Slot;

fn at_most(cap: Option<u64>, jobs: u64) -> u64
    ensures { (result ≡ capped cap jobs) × (result ≤ jobs) }
{
    cap.map_or(jobs, |cap| cap.min(jobs))
}

impl Rise {
    // The bound of a slot.
    pub(crate) fn bound(&self, k: Slot) -> u64
        ensures value { result ≡ bound self.now.bounds k.number }
        ensures small { result < 2 ^ 32 }
    {
        u64::from(self.bounds[k.index()])
    }

    // What the jobs of a task use ahead of one job, where its bound and the job's add up to the window.
    #[tactic(auto, using(crate::proofs::Rounding::up_is))]
    fn work_ahead(&self, e: Demand, cap: Option<u64>, window: u64) -> u64
        requires { window < 2 ^ 33 }
        ensures value { result ≡ work_ahead_of self.now.plan.cores e.total e.period cap window }
        ensures small { result ≤ 2 ^ 59 }
    {
        if cap == Some(0) {
            return 0;
        }
        let cores = u64::from(self.plan.cores);
        let left = (cores * window).saturating_sub(e.total);
        e.total * at_most(cap, left.div_ceil(cores * u64::from(e.period)))
    }

    // The share of slot i in what delays slot k: nothing where i is k or empty.
    fn share(&self, k: Slot, i: Slot) -> u64
        ensures value { result ≡ share_apart (kept self.now.caps k.number) self.now.plan self.now.bounds k.number i.number }
        ensures small { result ≤ 2 ^ 59 }
    {
        match self.plan.held(i) {
            Some(e) if i != k => {
                let cap = self.caps[i.index()][k.index()];
                self.work_ahead(e, cap, self.bound(k) + self.bound(i))
            }
            _ => 0,
        }
    }

    // What delays slot k, in all.
    fn others(&self, k: Slot) -> u64
        ensures value { result ≡ interference (kept self.now.caps k.number) self.now.plan self.now.bounds k.number }
        ensures small { result ≤ 2 ^ 63 }
    {
        Slot::map_all(|i| self.share(k, i)).iter().sum()
    }

    // The right side for the task d of slot k.
    #[tactic(auto, using(crate::proofs::Rounding::up_is))]
    pub(crate) fn right_side(&self, k: Slot, d: Demand) -> u64
        ensures { result ≡ side (kept self.now.caps k.number) self.now.plan self.now.bounds k.number d }
    {
        let rest = d.total - d.longest + self.others(k);
        d.longest + rest.div_ceil(u64::from(self.plan.cores))
    }
}
