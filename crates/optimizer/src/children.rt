ghost use Rattle.std.specs.Prelude.{◌≡◌, ◌≤◌, length};
ghost use Rattle.plan.specs.Tasks.{max_tasks, period_maxs};
ghost use Rattle.plan.specs.Promises.{plan_tasks};
ghost use Rattle.optimizer.specs.Inner.{DroppedBy, Dropped, Above, Expands, Lists, SameSpace};

use super::nodes::OpenNodes;
use plan::Plan;

// Which children of a node an open node drops: all, one task's, or none.
#[derive(Clone, Copy, Debug, PartialEq, Eq)]
pub enum Drops {
    All,
    One(usize),
    Nothing,
}

// A child of node is node with one period set to the mua's and one more. It dominates q where q exceeds node nowhere
// else. Node and mua stay two slices: as fields of a struct each clause would name them by `self.now`.
fn dropped_by(q: &[u32], node: &[u32], mua: &[u32]) -> Drops
    requires { (length q.now ≡ length node.now) × (length node.now ≤ max_tasks) × Above node.now mua.now }
    ensures { DroppedBy q.now node.now mua.now result }
{
    let mut over: u32 = 0;
    // To the end: an early exit would be mispredicted. In 32 bits, so that four periods are compared at a time; and by
    // place, since zip tests two ends.
    for (i, &period) in node.iter().enumerate() {
        if period < q[i] {
            over += 1;
        }
    }
    if 1 < over {
        return Drops::Nothing;
    }
    let Some(at) = node
        .iter()
        .zip(q)
        .position(|(period, other)| period < other)
    else {
        return Drops::All;
    };
    if q[at] - 1 <= mua[at] {
        return Drops::One(at);
    }
    Drops::Nothing
}

// Which children of node dominate an open node, in one pass over the open nodes: a mark a task, by place. Sixteen flags
// have no length beside them; a vector would be filled to its end all the same. A function of its own in the archive,
// too: drawn into the whole search its loop is compiled worse.
#[inline(never)]
fn dropped(nodes: &OpenNodes, node: &[u32], mua: &[u32]) -> [bool; Plan::MAX_TASKS]
    requires { Expands nodes.now node.now mua.now }
    ensures { Dropped nodes.now node.now mua.now result }
{
    let mut marks = [false; Plan::MAX_TASKS];
    for k in 0..nodes.count {
        match dropped_by(nodes.node(k), node, mua) {
            Drops::All => {
                return [true; Plan::MAX_TASKS];
            }
            Drops::One(i) => marks[i] = true,
            Drops::Nothing => {}
        }
    }
    marks
}

// Lists the children of node that are not dropped; where there is no room, some of them. Whether there was room.
pub fn expand(plan: &Plan, nodes: &mut OpenNodes, node: &[u32], mua: &[u32]) -> bool
    requires { Expands nodes.old node.now mua.now × (length node.now ≡ length (plan_tasks plan.now)) }
    ensures same { SameSpace nodes.old nodes.new }
    ensures lists { Lists (period_maxs (plan_tasks plan.now)) node.now mua.now nodes.old nodes.new result }
{
    let marks = dropped(nodes, node, mua);
    for (i, task) in plan.tasks.iter().enumerate() {
        if mua[i] < task.period_max && !marks[i] {
            if nodes.count == nodes.room {
                return false;
            }
            nodes.append_child(node, i, mua[i] + 1);
        }
    }
    true
}
