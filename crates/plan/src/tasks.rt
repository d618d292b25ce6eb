ghost use Rattle.std.specs.Prelude.{◌≡◌};
ghost use Rattle.plan.specs.Tasks.{within_limits, row_of};

use super::record::Plan;

// A task, as its row of the file has it; times in ticks.
#[derive(Clone, Copy, Debug, Default, PartialEq, Eq)]
pub struct Task {
    pub wcet: u32,
    pub period_min: u32,
    pub period_max: u32,
    pub deadline_cap: u32,
    pub weight: u32,
    pub blocking: u32,
    pub jitter: u32,
}

impl Task {
    // How many fields a task has; rows of version 1 have the first five.
    pub const FIELDS: usize = 7;

    pub fn within_limits(&self) -> bool
        ensures { result ≡ within_limits self.now }
    {
        let ticks = 1..=Plan::MAX_TICKS;
        ticks.contains(&self.wcet)
            && ticks.contains(&self.period_min)
            && ticks.contains(&self.period_max)
            && ticks.contains(&self.deadline_cap)
            && self.weight <= Plan::MAX_WEIGHT
            && self.blocking <= Plan::MAX_BLOCKING
            && self.jitter <= Plan::MAX_JITTER
    }

    // The fields in the order of a row.
    pub fn row(&self) -> [u32; Task::FIELDS]
        ensures { result ≡ row_of self.now }
    {
        [
            self.wcet,
            self.period_min,
            self.period_max,
            self.deadline_cap,
            self.weight,
            self.blocking,
            self.jitter,
        ]
    }
}
