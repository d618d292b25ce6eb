ghost use Rattle.std.specs.Prelude.{◌<◌, ◌≤◌, length};

use plan::Task;
use std::ops::RangeInclusive;

// The place of one of three tasks.
#[derive(Clone, Copy)]
pub(crate) enum Place {
    First,
    Second,
    Third,
}

pub(crate) static PLACES: [Place; 3] = [Place::First, Place::Second, Place::Third];

impl Place {
    pub(crate) fn index(self) -> usize
        ensures { result < 3 }
    {
        self as usize
    }

    // The number of its task, from 1 on.
    pub(crate) fn number(self) -> u32 {
        self as u32 + 1
    }
}

// A period for each of three tasks.
#[derive(Clone, Copy, Default, PartialEq, Eq)]
pub(crate) struct Assignment {
    periods: [u32; 3],
}

impl Assignment {
    pub(crate) fn period(&self, place: Place) -> u32 {
        self.periods[place.index()]
    }

    // The assignment with another period of a task.
    pub(crate) fn with(mut self, place: Place, period: u32) -> Assignment {
        self.periods[place.index()] = period;
        self
    }

    // Whether no period is longer than another assignment's.
    pub(crate) fn is_below(&self, other: &Assignment) -> bool {
        let [a, b, c] = self.periods;
        let [x, y, z] = other.periods;
        a <= x && b <= y && c <= z
    }
}

// How much later than its moment each of three tasks is released.
pub(crate) type Delays = [u32; 3];

// One, two or three tasks: an array with a count, so that sums and products go over three places. A task that is not
// there is one of zeros, whose one period is 0 and costs nothing.
#[derive(Clone, Copy)]
pub(crate) struct SmallPlan {
    pub tasks: [Task; 3],
    pub count: usize,
    ghost some: { 0 < count },
    ghost few: { count ≤ 3 },
}

impl SmallPlan {
    pub(crate) fn tasks(&self) -> &[Task]
        ensures some { 0 < length result.now }
        ensures few { length result.now ≤ 3 }
    {
        &self.tasks[..self.count]
    }

    pub(crate) fn places(&self) -> &'static [Place] {
        &PLACES[..self.count]
    }

    pub(crate) fn task(&self, place: Place) -> &Task {
        &self.tasks[place.index()]
    }

    // Its tasks' jitter: the longest delays.
    pub(crate) fn jitter(&self) -> Delays {
        let [a, b, c] = &self.tasks;
        [a.jitter, b.jitter, c.jitter]
    }

    // The periods of its tasks.
    pub(crate) fn periods<'a>(&self, assignment: &'a Assignment) -> &'a [u32] {
        &assignment.periods[..self.count]
    }

    // The assignment of the shortest periods.
    pub(crate) fn least(&self) -> Assignment {
        let [a, b, c] = &self.tasks;
        Assignment {
            periods: [a.period_min, b.period_min, c.period_min],
        }
    }

    // The assignment of the longest periods.
    pub(crate) fn longest(&self) -> Assignment {
        let [a, b, c] = &self.tasks;
        Assignment {
            periods: [a.period_max, b.period_max, c.period_max],
        }
    }

    // Assignment k of 512, in their order: how far each period is above its lower bound, from 0 to 7.
    pub(crate) fn nth(&self, k: u32) -> Assignment {
        let [a, b, c] = &self.tasks;
        Assignment {
            periods: [
                a.period_min.wrapping_add(k / 64),
                b.period_min.wrapping_add(k / 8 % 8),
                c.period_min.wrapping_add(k % 8),
            ],
        }
    }

    pub(crate) fn bounds(&self, place: Place) -> RangeInclusive<u32> {
        let task = self.task(place);
        task.period_min..=task.period_max
    }

    // How many assignments are within the bounds.
    pub(crate) fn assignments(&self) -> u32 {
        let mut count = 1u32;
        for task in &self.tasks {
            let width = task
                .period_max
                .wrapping_sub(task.period_min)
                .wrapping_add(1);
            count = count.wrapping_mul(width);
        }
        count
    }

    pub(crate) fn cost(&self, assignment: &Assignment) -> u64 {
        let mut cost = 0u64;
        for place in &PLACES {
            let weight = u64::from(self.task(*place).weight);
            cost = cost.wrapping_add(weight * u64::from(assignment.period(*place)));
        }
        cost
    }

    // What orders assignments: their cost, and where that is equal the periods.
    pub(crate) fn order(&self, assignment: &Assignment) -> (u64, [u32; 3]) {
        (self.cost(assignment), assignment.periods)
    }

    // The first of some assignments in that order.
    pub(crate) fn first_of(&self, assignments: &[Assignment]) -> Option<Assignment> {
        assignments
            .iter()
            .copied()
            .min_by_key(|assignment| self.order(assignment))
    }
}
