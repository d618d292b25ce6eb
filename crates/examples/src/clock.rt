use super::small::{Assignment, Delays, PLACES, Place, SmallPlan};
use plan::Task;
use response::Times;
use std::cmp::Ordering;
use std::fmt;

// The slack of a task that is not done by the longest response time.
const NO_SLACK: i32 = -2_000_000;

// The longest response time.
pub(crate) const LONGEST: u32 = 2_000_000;

// A task of a drawn plan responds by this tick, or never: its own demand, one job of each of the two tasks above and
// what these demand in 3 ticks of jitter are at most 18 ticks; these two, with periods up to 11, leave at least 1/110
// of the processor, if any; and its own jitter is at most 3.
pub(crate) const SOON: u32 = 18 * 110 + 3;

// How many jobs of a task are released at tick `now`: its moments come every period, one of them a delay before tick 0.
// That job is released at 0, those whose moments come until then with it, and every later one at its moment.
fn released(period: u32, delay: u32, now: u32) -> u32 {
    let passed = now.wrapping_add(delay);
    if period == 0 {
        0
    } else if now == 0 {
        (passed / period).wrapping_add(1)
    } else {
        u32::from(passed % period == 0)
    }
}

// Tasks at given periods, each released at tick 0 as much later than its moment as its delay says.
#[derive(Clone, Copy)]
struct Clock<'a> {
    plan: &'a SmallPlan,
    periods: &'a Assignment,
    delays: Delays,
}

impl<'a> Clock<'a> {
    // The critical instant: every task is as late as its jitter lets it.
    fn critical(plan: &'a SmallPlan, periods: &'a Assignment) -> Clock<'a> {
        Clock {
            plan,
            periods,
            delays: plan.jitter(),
        }
    }

    // The work that the tasks above one release at tick `now`.
    fn released_above(&self, place: Place, now: u32) -> u32 {
        let mut work = 0u32;
        for above in &PLACES[..place.index()] {
            let jobs = released(self.periods.period(*above), self.delays[above.index()], now);
            work = work.wrapping_add(self.plan.task(*above).wcet.wrapping_mul(jobs));
        }
        work
    }

    // The response by the clock, from the task's moment on: tick by tick, until all work released before the tick's end
    // is done; none past a longest response.
    fn response(&self, place: Place, longest: u32) -> Option<u32> {
        let delay = self.delays[place.index()];
        let mut work = own_demand(self.plan.task(place));
        for now in 0..longest.saturating_sub(delay) {
            work = work.wrapping_add(self.released_above(place, now));
            if work <= now + 1 {
                return Some(delay.wrapping_add(now + 1));
            }
        }
        None
    }
}

// What a task demands for itself: its wcet and, once, its blocking.
pub(crate) fn own_demand(task: &Task) -> u32 {
    task.wcet.wrapping_add(task.blocking)
}

fn deadline(plan: &SmallPlan, periods: &Assignment, place: Place) -> u32 {
    periods.period(place).min(plan.task(place).deadline_cap)
}

// The slack of a response by the clock; the requirement's number where there is none.
fn slack(plan: &SmallPlan, periods: &Assignment, place: Place, response: Option<u32>) -> i32 {
    match response {
        Some(response) => deadline(plan, periods, place)
            .wrapping_sub(response)
            .cast_signed(),
        None => NO_SLACK,
    }
}

// The first task, from 1 on, that misses its deadline.
pub(crate) fn first_missed(plan: &SmallPlan, periods: &Assignment) -> Option<u32> {
    let clock = Clock::critical(plan, periods);
    for place in plan.places() {
        let deadline = deadline(plan, periods, *place);
        if clock.response(*place, deadline).is_none() {
            return Some(place.number());
        }
    }
    None
}

// What TIMES was compared at: period assignments, missed deadlines, tasks that are never done, and answers that differ;
// and how responses at other delays compare with those that its slacks tell.
#[derive(Clone, Copy, Default)]
pub(crate) struct Counts {
    assignments: u64,
    missed: u64,
    never: u64,
    differences: u64,
    earlier: u64,
    as_late: u64,
    later: u64,
}

impl Counts {
    // Compares the responses by a clock, up to a longest one, with those that slacks tell, where there are any.
    fn compare_delayed(&mut self, clock: &Clock, slacks: &[i32; 3], longest: u32) {
        for place in clock.plan.places() {
            let told = slacks[place.index()];
            if told == NO_SLACK {
                continue;
            }
            let response = clock.response(*place, longest);
            let by_clock = slack(clock.plan, clock.periods, *place, response);
            let counter = match by_clock.cmp(&told) {
                Ordering::Greater => &mut self.earlier,
                Ordering::Equal => &mut self.as_late,
                Ordering::Less => &mut self.later,
            };
            *counter = counter.saturating_add(1);
        }
    }

    // Compares TIMES with the clock up to a longest response; the space that is lent is cut to its length.
    pub(crate) fn compare(
        &mut self,
        file: &[u8],
        plan: &SmallPlan,
        periods: &Assignment,
        delays: &Delays,
        longest: u32,
    ) {
        let critical = Clock::critical(plan, periods);
        let delayed = Clock {
            delays: *delays,
            ..critical
        };
        let mut slacks = [7; 3];
        let answer = response::response_times(
            file,
            plan.periods(periods),
            &mut slacks[..plan.count],
        );
        self.compare_delayed(&delayed, &slacks, longest);
        let mut missed = 0u32;
        let mut is_same = true;
        for place in plan.places() {
            let by_clock = slack(plan, periods, *place, critical.response(*place, longest));
            is_same &= slacks[place.index()] == by_clock;
            missed = missed.wrapping_add(u32::from(by_clock < 0));
            let is_never = by_clock == NO_SLACK;
            self.never = self.never.saturating_add(u64::from(is_never));
        }
        is_same &= answer
            == Ok(Times {
                missed,
                first: first_missed(plan, periods),
            });
        self.assignments = self.assignments.saturating_add(1);
        self.missed = self.missed.saturating_add(u64::from(missed));
        self.differences = self.differences.saturating_add(u64::from(!is_same));
    }
}

impl fmt::Display for Counts {
    fn fmt<W: fmt::Write>(&self, f: &mut fmt::Formatter<W>) -> fmt::Result {
        let Counts {
            assignments,
            missed,
            never,
            differences,
            earlier,
            as_late,
            later,
        } = *self;
        write!(
            f,
            "period assignments {assignments} missed deadlines {missed} never done {never} differences {differences}, \
             at other delays earlier {earlier} as late {as_late} later {later}"
        )
    }
}
