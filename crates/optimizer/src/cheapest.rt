ghost use Rattle.plan.specs.Faults.{none};
ghost use Rattle.plan.specs.Files.{file_fault, tasks_of};
ghost use Rattle.plan.specs.Promises.{plan_tasks};
ghost use Rattle.optimizer.specs.Answers.{answer_of};
ghost use Rattle.optimizer.specs.Promises.{Plans};

use super::call::{check_feasible, check_spaces};
use super::conclusion::Conclusion;
use super::errors::CallError;
use super::search::search;
use plan::Plan;

// CHEAPEST of a plan that was loaded.
pub fn cheapest_of(
    plan: &Plan,
    budget: u64,
    periods: &mut [u32],
    work: &mut [u32],
) -> Result<Conclusion, CallError>
    ensures { Plans none (plan_tasks plan.now) budget
        periods.old periods.new work.old work.new (answer_of result) }
{
    check_spaces(plan, periods.len(), work.len())?;
    check_feasible(plan)?;
    let conclusion = search(plan, budget, periods, work);
    work.fill(0);
    Ok(conclusion)
}

// CHEAPEST: the cheapest schedulable periods within the bounds, or at a stop the incumbent, are written; the work space
// is left cleared. A refusal leaves both spaces as they were.
pub fn cheapest_periods(
    file: &[u8],
    budget: u64,
    periods: &mut [u32],
    work: &mut [u32],
) -> Result<Conclusion, CallError>
    ensures { Plans (file_fault file.now) (tasks_of file.now) budget
        periods.old periods.new work.old work.new (answer_of result) }
{
    let loaded = plan::load_plan(file)?;
    cheapest_of(&loaded.plan, budget, periods, work)
}
