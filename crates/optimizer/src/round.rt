ghost use Rattle.std.specs.Prelude.{List, ℕ};
ghost use Rattle.plan.specs.Promises.{plan_tasks};
ghost use Rattle.response.specs.Analysis.{schedulable};
ghost use Rattle.optimizer.specs.Search.{rule};
ghost use Rattle.optimizer.specs.Inner.{Ready, Rounds, SameSpace};

use super::children::expand;
use super::nodes::OpenNodes;
use boundary::{Node, mua_of};
use plan::Plan;
use response::Assignment;

// What a round comes to: the answer, the children that are not dropped listed, or no room for these.
#[derive(Clone, Copy, Debug, PartialEq, Eq)]
pub enum Step {
    Answered,
    Listed,
    Full,
}

// What a round comes to, and the node that it took off.
#[derive(Drop)]
pub struct Round {
    pub step: Step,
    pub node: Node,
}

// One round, in which the incumbent has no part: the least node is the answer, or its children are listed.
pub fn run_round(plan: &Plan, nodes: &mut OpenNodes) -> Round
    requires { Ready (plan_tasks plan.now) nodes.old }
    ensures same { SameSpace nodes.old nodes.new }
    ensures rounds { let ts = plan_tasks plan.now in
        (incumbent : List ℕ) → Rounds (rule ts (schedulable ts)) incumbent nodes.old nodes.new result }
{
    let node = nodes.take_least();
    let assignment = Assignment {
        tasks: &plan.tasks,
        periods: &node.periods,
    };
    let step = if assignment.is_schedulable() {
        Step::Answered
    } else if expand(plan, nodes, &node.periods, &mua_of(&assignment)) {
        Step::Listed
    } else {
        Step::Full
    };
    Round { step, node }
}
