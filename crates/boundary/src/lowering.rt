ghost use Rattle.std.specs.Prelude.{◌≡◌, ◌≤◌, length};
ghost use Rattle.plan.specs.Tasks.{max_tasks, period_maxs, weights, AllValid};
ghost use Rattle.plan.specs.Promises.{plan_tasks};
ghost use Rattle.response.specs.Analysis.{schedulable};
ghost use Rattle.response.specs.Assignments.{cost};
ghost use Rattle.boundary.specs.Lowering.{lowering, lowering_from};
ghost use Rattle.boundary.specs.Inner.{Lowers, LowersNode, LowersUpTo};

use super::begins::begin_at;
use super::misses::{last_miss_from, lowest_start};
use super::node::Node;
use plan::{Plan, Task};
use response::Assignment;

// Each task in turn. A task's busy period is no shorter than `begin_at` says, and the lowest's no shorter than before a
// period was lowered: their climbs begin there. The periods that are lowered and the node's below them are a lower
// bound of the cost: past the limit the rest is left.
fn lower_all(tasks: &[Task], x: &mut [u32], node: &Node, limit: u64) -> u64
    requires tasks { (1 ≤ length tasks.now) × ((length tasks.now ≤ max_tasks) × AllValid tasks.now) }
    requires lowers { let ts = tasks.now in let p = node.now.periods.items in
        Lowers ts p x.old × (node.now.cost ≡ cost (weights ts) p) }
    ensures { let ts = tasks.now in let p = node.now.periods.items in
        LowersUpTo (weights ts) (lowering_from (length p) (schedulable ts) p x.old 0) limit
        x.new result }
{
    let mut cost = node.cost;
    // the first task has none above: `begin_at` leaves this unread, and an Option would be taken apart for one turn
    let mut own: u32 = 0;
    let mut start = lowest_start(tasks);
    for (i, &least) in node.periods.iter().enumerate() {
        let most = x[i];
        let begin = begin_at(tasks, i, own);
        let assignment = Assignment { tasks, periods: x };
        own = assignment
            .busy_from(i, assignment.last_end(i), begin)
            .unwrap();
        let miss = last_miss_from(tasks, x, i, own, least - 1, most, start);
        let period = miss.last + 1;
        x[i] = period;
        cost += u64::from(tasks[i].weight) * u64::from(period - least);
        if limit < cost {
            return cost;
        }
        start = miss.busy;
    }
    cost
}

// The lowering of a node, from the longest periods, with its cost, up to a limit; past it only that it is past.
pub fn lowering_of(plan: &Plan, node: &Node, limit: u64) -> Node
    requires { let ts = plan_tasks plan.now in let p = node.now.periods.items in
        LowersNode ts p × (node.now.cost ≡ cost (weights ts) p) }
    ensures { let ts = plan_tasks plan.now in let p = node.now.periods.items in
        LowersUpTo (weights ts) (lowering (schedulable ts) (period_maxs ts) p) limit
        result.periods.items result.cost }
{
    let mut periods = plan.column(|task| task.period_max);
    let cost = lower_all(&plan.tasks, &mut periods, node, limit);
    Node { cost, periods }
}
