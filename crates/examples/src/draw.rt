ghost use Rattle.std.specs.Prelude.{◌<◌};

use super::small::{Assignment, Delays, PLACES, Place, SmallPlan};
use plan::{Plan, Task};
use std::array;
use std::ops::RangeInclusive;

fn next(number: u32) -> u32 {
    ((u64::from(number) * 1103515245 + 12345) % 2147483648) as u32
}

// The next numbers of a fixed sequence.
#[derive(Clone, Copy)]
pub(crate) struct Sequence {
    numbers: [u32; 36],
}

impl Sequence {
    pub(crate) fn new(seed: u32) -> Sequence {
        let mut last = seed;
        let numbers = array::from_fn(|_| {
            last = next(last);
            last
        });
        Sequence { numbers }
    }

    // The seed of the next sequence is number 29; the numbers behind it come again there.
    pub(crate) fn next_seed(&self) -> u32 {
        self.numbers[29]
    }

    // Number k as one of a range.
    pub(crate) fn draw(&self, k: usize, range: RangeInclusive<u32>) -> u32
        requires { k < 36 }
    {
        let least = *range.start();
        let count = range.end().saturating_sub(least).saturating_add(1);
        least.wrapping_add(self.numbers[k] / 65536 % count)
    }

    // A small task, by five numbers from 0 on, and with blocking and jitter up to `most` by numbers 30 to 35.
    fn draw_task(&self, place: Place, most: u32) -> Task {
        let from = 5 * place.index();
        let period_min = self.draw(from + 1, 1..=4);
        Task {
            wcet: self.draw(from, 1..=4),
            period_min,
            period_max: self.draw(from + 2, period_min..=period_min.saturating_add(7)),
            deadline_cap: self.draw(from + 3, 1..=24),
            weight: self.draw(from + 4, 0..=3),
            blocking: self.draw(30 + place.index(), 0..=most),
            jitter: self.draw(33 + place.index(), 0..=most),
        }
    }

    // As many tasks as number 15 says.
    pub(crate) fn draw_plan(&self, most: u32) -> SmallPlan {
        let count = self.draw(15, 1..=3).clamp(1, 3) as usize;
        let mut tasks = [Task::default(); 3];
        for place in &PLACES[..count] {
            tasks[place.index()] = self.draw_task(*place, most);
        }
        SmallPlan { tasks, count }
    }

    // A plan of three tasks: the last has up to 1.3 million ticks of its own to do, and up to a million of jitter;
    // those above mostly leave it enough of the processor to be done.
    pub(crate) fn draw_late_plan(&self) -> SmallPlan {
        let last = Task {
            wcet: self.draw(10, 1..=32767).saturating_mul(20),
            period_min: Plan::MAX_TICKS,
            period_max: Plan::MAX_TICKS,
            deadline_cap: Plan::MAX_TICKS,
            blocking: self.draw(11, 0..=32767).saturating_mul(20),
            jitter: self.draw(12, 0..=32767).saturating_mul(30),
            ..self.draw_task(Place::Third, 0)
        };
        SmallPlan {
            tasks: [
                Task {
                    wcet: 1,
                    ..self.draw_task(Place::First, 3)
                },
                Task {
                    wcet: 1,
                    ..self.draw_task(Place::Second, 3)
                },
                last,
            ],
            count: 3,
        }
    }

    // Periods within the bounds in run k of four, by numbers 16 to 27.
    pub(crate) fn draw_periods(&self, run: usize, plan: &SmallPlan) -> Assignment
        requires { run < 4 }
    {
        let mut drawn = plan.least();
        for place in plan.places() {
            let period = self.draw(16 + 3 * run + place.index(), plan.bounds(*place));
            drawn = drawn.with(*place, period);
        }
        drawn
    }

    // The delays in run k of four, by numbers 0 to 11: none, one, two or three thirds of each task's jitter.
    pub(crate) fn draw_delays(&self, run: usize, plan: &SmallPlan) -> Delays
        requires { run < 4 }
    {
        let mut delays = Delays::default();
        for place in plan.places() {
            let thirds = self.draw(3 * run + place.index(), 0..=3);
            delays[place.index()] = plan.task(*place).jitter.wrapping_mul(thirds) / 3;
        }
        delays
    }
}
