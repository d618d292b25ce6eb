ghost use Rattle.plan.specs.Promises.{Loads};

use super::located::Located;
use super::record::Plan;

// A plan file that its rules let pass, located, and its plan.
#[derive(Clone, Copy)]
pub struct PlanFile<'f> {
    pub located: Located<'f>,
    pub plan: Plan,
    ghost loads: { Loads located.file.now plan },
}
