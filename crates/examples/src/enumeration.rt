use super::clock::first_missed;
use super::small::{Assignment, SmallPlan};
use arrayvec::ArrayVec;

// How many period assignments three tasks with eight periods each have.
pub(crate) const ASSIGNMENTS: usize = 512;

// The period assignments of a small plan.
#[derive(Drop)]
pub(crate) struct Enumeration {
    pub plan: SmallPlan,
    // those that are within the bounds and schedulable
    met: ArrayVec<Assignment, ASSIGNMENTS>,
}

impl Enumeration {
    pub(crate) fn new(plan: SmallPlan) -> Enumeration {
        let longest = plan.longest();
        let mut met = ArrayVec::new();
        for k in 0..ASSIGNMENTS {
            let assignment = plan.nth(k as u32);
            if assignment.is_below(&longest) && first_missed(&plan, &assignment).is_none() {
                met.push(assignment);
            }
        }
        Enumeration { plan, met }
    }

    // Whether an assignment is within the bounds and schedulable.
    pub(crate) fn is_met(&self, assignment: &Assignment) -> bool {
        self.met.contains(assignment)
    }

    // The cheapest assignment that is within the bounds and schedulable, the first of equal cost.
    pub(crate) fn cheapest(&self) -> Option<Assignment> {
        self.plan.first_of(&self.met)
    }
}
