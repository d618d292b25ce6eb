use super::enumeration::{ASSIGNMENTS, Enumeration};
use super::small::{Assignment, PLACES, Place};
use arrayvec::ArrayVec;
use optimizer::{Conclusion, Stop};

// Assignment u with the greatest period of a task at which it is not schedulable.
fn raised(all: &Enumeration, u: Assignment, place: Place) -> Assignment {
    for period in all.plan.bounds(place).rev() {
        let v = u.with(place, period);
        if !all.is_met(&v) {
            return v;
        }
    }
    u
}

// The maximal unschedulable assignment above a node.
fn mua(all: &Enumeration, node: Assignment) -> Assignment {
    let mut mua = node;
    for place in &PLACES {
        mua = raised(all, mua, *place);
    }
    mua
}

// Assignment x with the least period of a task, from one on, at which it is schedulable: `raised` the other way round,
// in its own words, as the rule has it.
fn lowered(all: &Enumeration, x: Assignment, place: Place, from: u32) -> Assignment {
    for period in from..=x.period(place) {
        let v = x.with(place, period);
        if all.is_met(&v) {
            return v;
        }
    }
    x
}

// The lowering of a node.
fn lowering(all: &Enumeration, node: Assignment) -> Assignment {
    let mut lowering = all.plan.longest();
    for place in &PLACES {
        lowering = lowered(all, lowering, *place, node.period(*place));
    }
    lowering
}

// How a search ended, with the answer's or the incumbent's assignment.
#[derive(Clone, Copy)]
pub(crate) struct End {
    pub conclusion: Conclusion,
    pub found: Assignment,
}

// The rounds of CHEAPEST by plain scans.
#[derive(Drop)]
pub(crate) struct Search<'a> {
    all: &'a Enumeration,
    // how many open nodes have room
    room: usize,
    open: ArrayVec<Assignment, ASSIGNMENTS>,
    incumbent: Assignment,
}

impl<'a> Search<'a> {
    pub(crate) fn new(all: &'a Enumeration, room: usize) -> Search<'a> {
        let mut open = ArrayVec::new();
        open.push(all.plan.least());
        Search {
            all,
            room,
            open,
            incumbent: all.plan.longest(),
        }
    }

    // The least open node.
    fn least(&self) -> Option<Assignment> {
        self.all.plan.first_of(&self.open)
    }

    fn take_least(&mut self) -> Option<Assignment> {
        let least = self.least()?;
        self.open.retain(|node| *node != least);
        Some(least)
    }

    // Makes the lowering of a node the incumbent where that is less.
    fn improve(&mut self, node: Assignment) {
        let plan = &self.all.plan;
        let lowering = lowering(self.all, node);
        if plan.order(&lowering) < plan.order(&self.incumbent) {
            self.incumbent = lowering;
        }
    }

    // The child of a node at a task, where there is one that dominates no open node.
    fn child(&self, node: Assignment, mua: Assignment, place: Place) -> Option<Assignment> {
        let period = mua.period(place);
        if period == self.all.plan.task(place).period_max {
            return None;
        }
        let child = node.with(place, period.saturating_add(1));
        for open in &self.open {
            if open.is_below(&child) {
                return None;
            }
        }
        Some(child)
    }

    // Lists the children of a taken node; whether all open nodes have room.
    fn expand(&mut self, node: Assignment) -> bool {
        let mua = mua(self.all, node);
        for place in &PLACES {
            if let Some(child) = self.child(node, mua, *place) {
                if self.open.try_push(child).is_err() {
                    return false;
                }
            }
        }
        self.open.len() <= self.room
    }

    fn stopped(&self, stop: Stop, rounds: u64, least: Assignment) -> End {
        let plan = &self.all.plan;
        End {
            conclusion: Conclusion::Stopped {
                stop,
                cost: plan.cost(&self.incumbent),
                rounds,
                bound: plan.cost(&least),
            },
            found: self.incumbent,
        }
    }

    // The rounds up to the budget; none where no node is left, which a schedulable assignment rules out.
    pub(crate) fn run(mut self, budget: u64) -> Option<End> {
        for rounds in 1..=budget {
            let node = self.take_least()?;
            if self.all.is_met(&node) {
                return Some(End {
                    conclusion: Conclusion::Answered {
                        cost: self.all.plan.cost(&node),
                        rounds,
                    },
                    found: node,
                });
            }
            self.improve(node);
            if !self.expand(node) {
                return Some(self.stopped(Stop::Room, rounds, node));
            }
        }
        let least = self.least()?;
        Some(self.stopped(Stop::Budget, budget, least))
    }
}
