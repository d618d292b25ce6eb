ghost use Rattle.response.specs.Inner.{Limits};

use super::tasks::{deadline, interference, last_end, own_demand};
use super::utilization::begin_by_utilization;
use plan::Task;

// The longest response time that is looked for.
const MAX_RESPONSE: u32 = 2_000_000;

// The slack of a task that has none.
pub const NO_SLACK: i32 = -2_000_000;

// Tasks at given periods.
#[derive(Clone, Copy)]
pub struct Assignment<'a> {
    pub tasks: &'a [Task],
    pub periods: &'a [u32],
    ghost limits: { Limits tasks.now periods.now },
}

impl<'a> Assignment<'a> {
    ghost use Rattle.std.specs.Prelude.{◌≡◌, ◌≤◌, ◌<◌, length, IfSome};
    ghost use Rattle.response.specs.Analysis.{demand, busy_period, max_response, response_time, deadline_at};
    ghost use Rattle.response.specs.Analysis.{slack, meets, schedulable, slack_list, first_missed};
    ghost use Rattle.response.specs.Inner.{Begins, Climbs, last_end_at, utilization_above, some_time, some_task};

    // The deadline of task i.
    fn deadline(&self, i: usize) -> u32
        requires { i < length self.now.periods.now }
        ensures { result ≡ deadline_at self.now.tasks.now self.now.periods.now i }
    {
        deadline(&self.tasks[i], self.periods[i])
    }

    // What task i and the tasks above it demand by t.
    fn demand(&self, i: usize, t: u32) -> u64
        requires { (i < length self.now.periods.now) × (t ≤ max_response) }
        ensures { result ≡ demand self.now.tasks.now self.now.periods.now i t }
    {
        let mut sum = u64::from(own_demand(&self.tasks[i]));
        for (task, &period) in self.tasks[..i].iter().zip(&self.periods[..i]) {
            sum += interference(task, period, t);
        }
        sum
    }

    // The last t with which task i meets its deadline, 0 where there is none.
    pub fn last_end(&self, i: usize) -> u32
        requires { i < length self.now.periods.now }
        ensures { result ≡ last_end_at self.now.tasks.now self.now.periods.now i }
    {
        last_end(&self.tasks[i], self.periods[i])
    }

    // The busy period of task i: the least t up to a last one that covers its demand by t, none past it: the climb,
    // from a time that no such t undercuts.
    pub fn busy_from(&self, i: usize, last: u32, start: u32) -> Option<u32>
        requires { Climbs last self.now.tasks.now self.now.periods.now i start }
        ensures { result ≡ some_time (busy_period last self.now.tasks.now self.now.periods.now i) }
    {
        if last < start {
            return None;
        }
        let mut t = start;
        // A `loop` whose `break` yields t is the requirement's form of the climb.
        loop {
            let demand = self.demand(i, t);
            if demand <= u64::from(t) {
                break Some(t);
            }
            if u64::from(last) < demand {
                break None;
            }
            t = demand as u32;
        }
    }

    // The response time of task i: its busy period and its jitter, by a climb from a time that no such t undercuts.
    fn response_from(&self, i: usize, start: u32) -> Option<u32>
        requires { let ts = self.now.tasks.now in let xs = self.now.periods.now in
            (i < length xs) × Begins max_response ts xs i start }
        ensures { result ≡ some_time (response_time self.now.tasks.now self.now.periods.now i) }
    {
        // Under a full utilization the climbs begin past the longest response: no jitter need be read.
        if MAX_RESPONSE < start {
            return None;
        }
        let jitter = self.tasks[i].jitter;
        let busy = self.busy_from(i, MAX_RESPONSE - jitter, start)?;
        Some(busy + jitter)
    }

    // The response time of task i.
    pub fn response_time(&self, i: usize) -> Option<u32>
        requires { i < length self.now.periods.now }
        ensures { result ≡ some_time (response_time self.now.tasks.now self.now.periods.now i) }
    {
        let start = own_demand(&self.tasks[i]);
        self.response_from(i, start)
    }

    // The slack of task i, how much its response time leaves of its deadline. The utilization of the tasks above tells
    // where the climb may begin.
    pub(crate) fn slack(&self, i: usize, above: u64) -> i32
        requires { (i < length self.now.periods.now)
            × (above ≡ utilization_above self.now.tasks.now self.now.periods.now i) }
        ensures { result ≡ slack self.now.tasks.now self.now.periods.now i }
    {
        let start = begin_by_utilization(own_demand(&self.tasks[i]), above, MAX_RESPONSE);
        match self.response_from(i, start) {
            Some(response) => self.deadline(i) as i32 - response as i32,
            None => NO_SLACK,
        }
    }

    // Whether task i meets its deadline: the climb is left past the last t with which it does.
    pub fn meets_deadline(&self, i: usize) -> bool
        requires { i < length self.now.periods.now }
        ensures { result ≡ meets self.now.tasks.now self.now.periods.now i }
    {
        let start = own_demand(&self.tasks[i]);
        self.busy_from(i, self.last_end(i), start).is_some()
    }

    // Whether every task meets its deadline. The lowest is tried first: it is mostly the one that misses.
    pub fn is_schedulable(&self) -> bool
        ensures { result ≡ schedulable self.now.tasks.now self.now.periods.now }
    {
        (0..self.periods.len())
            .rev()
            .all(|i| self.meets_deadline(i))
    }

    // The first task that misses its deadline, counted from 0.
    pub fn first_unschedulable(&self) -> Option<usize>
        ensures first { some_task result
            ≡ first_missed (slack_list self.now.tasks.now self.now.periods.now) }
        ensures within { IfSome result (λ i. i < length self.now.periods.now) }
    {
        (0..self.periods.len()).find(|&i| !self.meets_deadline(i))
    }
}
