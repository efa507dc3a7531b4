// One row of the watch, without key and links, and the seven calls of the siting watch as definitions; the calls leave a row that question 2 accepts. What is
// heard around the site stands in `heard`, the verdict on that site in `verdicts`. No function stands here.
#![tactic(auto)]

use heard::Heard;
use verdicts::Verdict;

// A row but for its key and links.
#[derive(Clone, Copy)]
pub struct Part {
    pub heard: Heard,
    pub verdict: Option<Verdict>,
    pub judged_ms: Option<u64>,
}
