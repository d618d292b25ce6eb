ghost use Rattle.std.specs.Prelude.{◌≡◌, suc, ◌+◌, ◌-◌, ◌≤◌, ◌<◌, length};
ghost use Rattle.plan.specs.Tasks.{max_ticks, task_at, AllValid};
ghost use Rattle.response.specs.Analysis.{own_demand};
ghost use Rattle.boundary.specs.Misses.{Moved, LastMiss, BeginsAt, Responds, settles};
ghost use Rattle.boundary.specs.Misses.{Seeks, SeeksBetween, SeeksBelow, SeeksFrom};

use super::begins::begin_below;
use plan::Task;
use response::{Assignment, last_end, own_demand};

// The last period at which a deadline is missed, and a time at which the climbs right past it may begin: a busy period
// there, or the time at which they began before.
#[derive(Clone, Copy, Debug, PartialEq, Eq)]
pub struct Miss {
    pub last: u32,
    pub busy: u32,
}

// The value to try next. The one above low settles a task that meets its deadline there; after it, the one below high
// mostly decides; every fourth halves what is left, which bounds the tries.
fn probe(low: u32, high: u32, turn: u32) -> u32
    requires { (low + 1 < high) × (high ≤ max_ticks + 1) }
    ensures { (low < result) × (result < high) }
{
    if turn == 0 {
        low + 1
    } else if turn % 4 == 3 {
        low + (high - low) / 2
    } else {
        high - 1
    }
}

// The last period of task i, from low to most, at which task k misses its deadline; low where there is none above.
// Where task k meets its deadline, it meets it down to the least period at which task i is released as often within the
// window of its busy period and task i's jitter. At every shorter period task i runs once more by then: the next climb
// begins so much later.
// Tasks, task and greatest period stay parameters: as a struct's fields every clause would name them by `self.now`; and
// the periods are lent mutably, which an `Assignment`'s are not.
fn last_miss(
    tasks: &[Task],
    u: &mut [u32],
    i: usize,
    k: usize,
    low: u32,
    most: u32,
    start: u32,
) -> Miss
    requires { Seeks tasks.now u.old i k low most start }
    ensures is { LastMiss tasks.now u.old i k (suc k) low most result.last }
    ensures responds { Responds tasks.now u.old i k most
        result.last result.busy }
    ensures moved { Moved tasks.now i u.old u.new }
{
    let task = &tasks[i];
    let end = (Assignment { tasks, periods: u }).last_end(k);
    let mut last = low;
    let mut high = most + 1;
    let mut busy = start;
    let mut begin = start;
    let mut turn: u32 = 0;
    // No `for`: what is left shrinks by jumps; a turn chooses the next value only.
    while last + 1 < high {
        let period = probe(last, high, turn);
        u[i] = period;
        let assignment = Assignment { tasks, periods: u };
        match assignment.busy_from(k, end, begin) {
            None => last = period,
            Some(found) => {
                busy = found;
                begin = found + task.wcet;
                let window = found + task.jitter;
                high = window.div_ceil(window.div_ceil(period));
            }
        }
        turn += 1;
    }
    Miss { last, busy }
}

// Whether a lower task's busy period, with its own demand, settles a task at a period.
fn settles(task: &Task, period: u32, own: u32, busy: u32) -> bool
    ensures { result ≡ settles task.now period own busy }
{
    busy <= last_end(task, period) && task.blocking <= own
}

// As `last_miss`, of the tasks between task i and task k, whose last miss and busy period are known: these settle
// every task whose deadline, less its jitter, is not before that time and whose blocking is not above task k's own
// demand.
fn last_miss_between(
    tasks: &[Task],
    u: &mut [u32],
    i: usize,
    k: usize,
    most: u32,
    known: Miss,
) -> u32
    requires { SeeksBetween tasks.now u.old i k most known.last known.busy }
    ensures is { let ts = tasks.now in
        LastMiss ts u.old i (suc i) k known.last most result }
    ensures moved { Moved tasks.now i u.old u.new }
{
    let mut miss = known;
    let mut own = own_demand(&tasks[k]);
    for j in (i + 1..k).rev() {
        let task = &tasks[j];
        if !settles(task, u[j], own, miss.busy) {
            own = own_demand(task);
            miss = last_miss(tasks, u, i, j, miss.last, most, own);
        }
    }
    miss.last
}

// As `last_miss`, of all tasks below task i, the lowest first: it is mostly the one that misses longest. The time is
// the lowest one's.
fn last_miss_below(tasks: &[Task], u: &mut [u32], i: usize, low: u32, most: u32, start: u32) -> Miss
    requires { SeeksBelow tasks.now u.old i low most start }
    ensures is { let n = length u.old in
        LastMiss tasks.now u.old i (suc i) n low most result.last }
    ensures begins { let p = u.old in (result.last < most
        → BeginsAt tasks.now p i (suc result.last) (length p - 1) result.busy) }
    ensures moved { Moved tasks.now i u.old u.new }
{
    let k = u.len() - 1;
    let lowest = last_miss(tasks, u, i, k, low, most, start);
    let last = last_miss_between(tasks, u, i, k, most, lowest);
    let busy = if lowest.last < last {
        start
    } else {
        lowest.busy
    };
    Miss { last, busy }
}

// As `last_miss`, of task i and all tasks below it; own is its busy period, in which its own period has no part: it
// meets its deadline from its response time on. The lowest one's climbs begin at start, or where `begin_below` says by
// own, if that is later.
pub fn last_miss_from(
    tasks: &[Task],
    u: &mut [u32],
    i: usize,
    own: u32,
    low: u32,
    most: u32,
    start: u32,
) -> Miss
    requires { SeeksFrom tasks.now u.old i own low most start }
    ensures is { let n = length u.old in
        LastMiss tasks.now u.old i i n low most result.last }
    ensures begins { let p = u.old in (result.last < most
        → BeginsAt tasks.now p i (suc result.last) (length p - 1) result.busy) }
    ensures moved { Moved tasks.now i u.old u.new }
{
    let task = &tasks[i];
    let from = low.max(own + task.jitter - 1);
    let lowest = u.len() - 1;
    if lowest <= i {
        return Miss {
            last: from,
            busy: start,
        };
    }
    let begin = begin_below(&tasks[lowest], task, own);
    last_miss_below(tasks, u, i, from, most, start.max(begin))
}

// Where the climbs of the lowest task may begin before any of its busy periods is known.
pub fn lowest_start(tasks: &[Task]) -> u32
    requires { (1 ≤ length tasks.now) × AllValid tasks.now }
    ensures { let ts = tasks.now in result ≡ own_demand (task_at ts (length ts - 1)) }
{
    own_demand(tasks.last().unwrap())
}
