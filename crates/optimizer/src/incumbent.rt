ghost use Rattle.plan.specs.Promises.{plan_tasks};
ghost use Rattle.response.specs.Analysis.{schedulable};
ghost use Rattle.optimizer.specs.Search.{improved};
ghost use Rattle.optimizer.specs.Inner.{IsIncumbent, IsLongest, Improvable};

use super::order::{cost_of, is_less};
use boundary::{Node, lowering_of};
use plan::Plan;

// The first incumbent: the longest periods.
pub fn longest(plan: &Plan) -> Node
    ensures { IsLongest (plan_tasks plan.now) result }
{
    let periods = plan.column(|task| task.period_max);
    let cost = cost_of(&plan.column(|task| task.weight), &periods);
    Node { cost, periods }
}

// The lowering of an unschedulable node becomes the incumbent if it is less.
pub fn improve(plan: &Plan, incumbent: &mut Node, node: &Node)
    requires { Improvable (plan_tasks plan.now) incumbent.old node.now }
    ensures { let ts = plan_tasks plan.now in
        IsIncumbent ts (improved ts (schedulable ts) incumbent.old.periods.items node.now.periods.items) incumbent.new }
{
    let lowered = lowering_of(plan, node, incumbent.cost);
    if is_less(
        lowered.cost,
        incumbent.cost,
        &lowered.periods,
        &incumbent.periods,
    ) {
        *incumbent = lowered;
    }
}
