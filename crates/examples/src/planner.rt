use super::clock::{first_missed, own_demand};
use super::draw::Sequence;
use super::enumeration::{ASSIGNMENTS, Enumeration};
use super::rounds::{End, Search};
use super::small::{Assignment, SmallPlan};
use super::space::are_all;
use optimizer::{CallError, Conclusion, Stop};
use plan::Task;
use std::fmt;

// Whether a task's own demand and jitter together exceed its longest period or its cap.
fn is_infeasible_alone(task: &Task) -> bool {
    task.period_max.min(task.deadline_cap) < own_demand(task).wrapping_add(task.jitter)
}

// The first such task, from 1 on.
fn first_alone(plan: &SmallPlan) -> Option<u32> {
    for place in plan.places() {
        if is_infeasible_alone(plan.task(*place)) {
            return Some(place.number());
        }
    }
    None
}

// 31 at the first task that is infeasible alone, or 32 at the first that misses its deadline at the longest periods;
// none where all meet theirs.
fn refusal_of(plan: &SmallPlan) -> Option<CallError> {
    if let Some(place) = first_alone(plan) {
        return Some(CallError::InfeasibleAlone(place));
    }
    let place = first_missed(plan, &plan.longest())?;
    Some(CallError::Infeasible(place))
}

// A run of CHEAPEST on a plan, with a budget and with room for so many numbers.
#[derive(Clone, Copy)]
pub(crate) struct Run<'a> {
    all: &'a Enumeration,
    budget: u64,
    room: usize,
}

// The length of a work space with room for every assignment.
fn enough(plan: &SmallPlan) -> usize {
    (plan.assignments() as usize).saturating_mul(plan.count)
}

impl<'a> Run<'a> {
    // Run k of four: with enough budget and room, with little of the one, by number 28 of a sequence, of the other, by
    // number 29, and of both.
    pub(crate) fn draw(all: &'a Enumeration, sequence: &Sequence, k: usize) -> Run<'a> {
        let plan = &all.plan;
        let tasks = plan.count as u32;
        Run {
            all,
            budget: if k % 2 == 0 {
                u64::from(plan.assignments())
            } else {
                u64::from(sequence.draw(28, 0..=7))
            },
            room: if k < 2 {
                enough(plan)
            } else {
                sequence.draw(29, tasks..=tasks + 7) as usize
            },
        }
    }

    // Whether the budget or the room is below the number of assignments, as at every stop.
    fn is_short(&self) -> bool {
        let plan = &self.all.plan;
        self.budget < u64::from(plan.assignments()) || self.room < enough(plan)
    }

    // The end of the plain rounds.
    fn search(&self) -> Option<End> {
        let room = self.room / self.all.plan.count;
        Search::new(self.all, room).run(self.budget)
    }

    // Whether an end keeps what the enumeration says: it is the optimum, or its bound is at most the least cost, and
    // its incumbent is schedulable and costs at least that.
    fn is_sound(&self, end: &End, optimum: &Assignment) -> bool {
        let plan = &self.all.plan;
        let least = plan.cost(optimum);
        match end.conclusion {
            Conclusion::Answered { cost, rounds } => {
                cost == least && end.found == *optimum && rounds <= u64::from(plan.assignments())
            }
            Conclusion::Stopped {
                cost,
                rounds,
                bound,
                ..
            } => {
                self.all.is_met(&end.found)
                    && least <= cost
                    && bound <= least
                    && rounds <= u64::from(plan.assignments())
                    && self.is_short()
            }
        }
    }

    // Whether a conclusion and the periods with it are those of the plain rounds, and these end as the enumeration
    // says.
    fn is_right(&self, conclusion: Conclusion, optimum: &Assignment, periods: &[u32]) -> bool {
        let Some(end) = self.search() else {
            return false;
        };
        periods == self.all.plan.periods(&end.found)
            && conclusion == end.conclusion
            && self.is_sound(&end, optimum)
    }

    // The answer on the plan's file where it is right. Both spaces are 7, and a refusal leaves them so; what is lent is
    // cut to its length.
    fn judge(&self, file: &[u8]) -> Option<Result<Conclusion, CallError>> {
        let mut periods = [7; 3];
        let mut work = [7; 3 * ASSIGNMENTS];
        let periods = &mut periods[..self.all.plan.count];
        let work = &mut work[..self.room.min(3 * ASSIGNMENTS)];
        let answer = optimizer::cheapest_periods(file, self.budget, periods, work);
        let is_right = match (answer, self.all.cheapest()) {
            (Ok(conclusion), Some(optimum)) => {
                are_all(work, 0) && self.is_right(conclusion, &optimum, periods)
            }
            (Err(refusal), None) => {
                refusal_of(&self.all.plan) == Some(refusal)
                    && are_all(periods, 7)
                    && are_all(work, 7)
            }
            _ => false,
        };
        is_right.then_some(answer)
    }
}

// How runs ended: with an answer, by rule 31 or 32, at the budget or for room; and those that were not right.
#[derive(Clone, Copy, Default)]
pub(crate) struct Counts {
    answers: u64,
    alone: u64,
    unschedulable: u64,
    budget: u64,
    room: u64,
    differences: u64,
}

impl Counts {
    // Compares a run with the enumeration.
    pub(crate) fn compare(&mut self, run: &Run, file: &[u8]) {
        let counter = match run.judge(file) {
            Some(Ok(Conclusion::Answered { .. })) => &mut self.answers,
            Some(Err(CallError::InfeasibleAlone(_))) => &mut self.alone,
            Some(Err(CallError::Infeasible(_))) => &mut self.unschedulable,
            Some(Ok(Conclusion::Stopped { stop, .. })) => match stop {
                Stop::Budget => &mut self.budget,
                Stop::Room => &mut self.room,
            },
            _ => &mut self.differences,
        };
        *counter = counter.saturating_add(1);
    }
}

impl fmt::Display for Counts {
    fn fmt<W: fmt::Write>(&self, f: &mut fmt::Formatter<W>) -> fmt::Result {
        let Counts {
            answers,
            alone,
            unschedulable,
            budget,
            room,
            differences,
        } = *self;
        write!(
            f,
            "answers {answers} 31 {alone} 32 {unschedulable} 33 {budget} 34 {room} differences {differences}"
        )
    }
}

// What blocking and jitter made of the cheapest assignments: none either way, the same, another, none by rule 31, none
// by 32.
#[derive(Clone, Copy, Default)]
pub(crate) struct Changes {
    neither: u64,
    same: u64,
    moved: u64,
    alone: u64,
    unschedulable: u64,
}

impl Changes {
    pub(crate) fn compare(&mut self, free: &Enumeration, delayed: &Enumeration) {
        let counter = match (free.cheapest(), delayed.cheapest()) {
            (None, _) => &mut self.neither,
            (Some(free), Some(delayed)) if free == delayed => &mut self.same,
            (Some(_), Some(_)) => &mut self.moved,
            (Some(_), None) if first_alone(&delayed.plan).is_some() => &mut self.alone,
            (Some(_), None) => &mut self.unschedulable,
        };
        *counter = counter.saturating_add(1);
    }
}

impl fmt::Display for Changes {
    fn fmt<W: fmt::Write>(&self, f: &mut fmt::Formatter<W>) -> fmt::Result {
        let Changes {
            neither,
            same,
            moved,
            alone,
            unschedulable,
        } = *self;
        write!(
            f,
            "none either way {neither} the same {same} moved {moved} lost to 31 {alone} lost to 32 {unschedulable}"
        )
    }
}
