// A pass of the search.
#![tactic(auto)]

ghost use Rattle.std.specs.Prelude.{◌≡◌, ◌-◌, ◌%◌, ◌^◌, ◌≤◌};

use bounds::Job;

// A pass of the search: the comparison, the search length s, and how windows are hashed; with what the checks leave of these numbers. The
// weight is the power of the multiplier that the first word of a window has.
#[derive(Clone, Copy)]
pub struct Pass {
    pub job: Job,
    pub s: usize,
    pub multiplier: u32,
    pub buckets: usize,
    pub weight: u32,
    ghost some_bucket: { 1 ≤ buckets },
    ghost few_buckets: { buckets ≤ 1024 },
    ghost one: { 1 ≤ s },
    ghost most: { s ≤ 2048 },
    ghost enough: { job.minimum ≤ s },
    ghost weighted: { weight ≡ multiplier ^ (s - 1) % 2 ^ 32 },
}

impl Pass {
    // The pass of a comparison at a search length, for a multiplier and a number of buckets.
    pub fn new(job: Job, s: usize, multiplier: u32, buckets: usize) -> Self
        requires { (1 ≤ s) × (s ≤ 2048) × (job.minimum ≤ s) × (1 ≤ buckets) × (buckets ≤ 1024) }
        ensures { (result.job ≡ job) × (result.s ≡ s) × (result.multiplier ≡ multiplier) × (result.buckets ≡ buckets) }
    {
        Pass {
            job,
            s,
            multiplier,
            buckets,
            weight: multiplier.wrapping_pow((s - 1) as u32),
        }
    }
}
