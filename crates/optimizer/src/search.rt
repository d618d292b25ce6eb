ghost use Rattle.std.specs.Prelude.{◌≡◌, length};
ghost use Rattle.plan.specs.Tasks.{weights};
ghost use Rattle.plan.specs.Promises.{plan_tasks};
ghost use Rattle.optimizer.specs.declared.conclusion.Conclusion.TheVariants.{Answered, Stopped};
ghost use Rattle.optimizer.specs.Answers.{conclusion_answer};
ghost use Rattle.optimizer.specs.Search.{search};
ghost use Rattle.optimizer.specs.Promises.{room_of, searched};
ghost use Rattle.optimizer.specs.Inner.{Searchable, Ends};

use super::conclusion::{Conclusion, Stop};
use super::incumbent;
use super::nodes::OpenNodes;
use super::round::{Round, Step, run_round};
use boundary::Node;
use plan::Plan;

// An answer: the node's periods go into their space.
fn answered(node: &Node, periods: &mut [u32], rounds: u64) -> Conclusion
    requires { length periods.old ≡ length node.now.periods.items }
    ensures is { result ≡ Answered node.now.cost rounds }
    ensures written { periods.new ≡ node.now.periods.items }
{
    periods.copy_from_slice(&node.periods);
    Conclusion::Answered {
        cost: node.cost,
        rounds,
    }
}

// A stop: the incumbent's periods go into their space.
fn stopped(stop: Stop, incumbent: &Node, periods: &mut [u32], rounds: u64, bound: u64) -> Conclusion
    requires { length periods.old ≡ length incumbent.now.periods.items }
    ensures is { result ≡ Stopped stop incumbent.now.cost rounds bound }
    ensures written { periods.new ≡ incumbent.now.periods.items }
{
    periods.copy_from_slice(&incumbent.periods);
    Conclusion::Stopped {
        stop,
        cost: incumbent.cost,
        rounds,
        bound,
    }
}

// The rounds. The open nodes never run out: the longest periods are schedulable and dominate one of them. The periods'
// space is written once, at the end.
pub fn search(plan: &Plan, budget: u64, periods: &mut [u32], work: &mut [u32]) -> Conclusion
    requires { Searchable (plan_tasks plan.now) periods.old work.old }
    ensures { let ts = plan_tasks plan.now in
        Ends (searched (weights ts) (search ts budget (room_of ts (length work.old))))
        periods.new (conclusion_answer result) }
{
    let mut incumbent = incumbent::longest(plan);
    let mut nodes = OpenNodes::start(plan, work);
    for rounds in 1..=budget {
        let Round { step, node } = run_round(plan, &mut nodes);
        if step == Step::Answered {
            return answered(&node, periods, rounds);
        }
        incumbent::improve(plan, &mut incumbent, &node);
        if step == Step::Full {
            return stopped(Stop::Room, &incumbent, periods, rounds, node.cost);
        }
    }
    stopped(
        Stop::Budget,
        &incumbent,
        periods,
        budget,
        nodes.least().cost,
    )
}
