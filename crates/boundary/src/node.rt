use plan::PerTask;

// Periods with their cost: a node taken off the open ones, a lowering, or the incumbent, which begins as the longest
// periods.
#[derive(Drop)]
pub struct Node {
    pub cost: u64,
    pub periods: PerTask,
}
