ghost use Rattle.std.specs.Prelude.{◌≡◌, length};
ghost use Rattle.plan.specs.Faults.{none, first_from};
ghost use Rattle.plan.specs.Tasks.{Valid};
ghost use Rattle.plan.specs.Promises.{plan_tasks};
ghost use Rattle.optimizer.specs.Answers.{call_error};
ghost use Rattle.optimizer.specs.Promises.{call_fault, infeasible_alone, alone_fault, infeasible_fault};

use super::errors::CallError;
use plan::{Plan, Task};
use response::{Assignment, deadline, own_demand};

// Rules 22 and 24, of spaces of so many numbers.
pub fn check_spaces(plan: &Plan, periods: usize, work: usize) -> Result<(), CallError>
    ensures { call_error result ≡ call_fault none (plan_tasks plan.now) periods work }
{
    let n = plan.tasks.len();
    if periods != n {
        return Err(CallError::PeriodsLength);
    }
    if work < n {
        return Err(CallError::WorkLength);
    }
    Ok(())
}

// Whether a task's own demand and jitter together exceed its deadline at its longest period.
fn infeasible_alone(task: &Task) -> bool
    requires { Valid task.now }
    ensures { result ≡ infeasible_alone task.now }
{
    deadline(task, task.period_max) < own_demand(task) + task.jitter
}

// Rule 31: the first such task.
fn check_alone(plan: &Plan) -> Result<(), CallError>
    ensures { let ts = plan_tasks plan.now in call_error result ≡ first_from (alone_fault ts) (length ts) 0 }
{
    match plan.tasks.iter().position(infeasible_alone) {
        Some(i) => Err(CallError::InfeasibleAlone((i + 1) as u32)),
        None => Ok(()),
    }
}

// Rules 31 and 32.
pub fn check_feasible(plan: &Plan) -> Result<(), CallError>
    ensures { call_error result ≡ infeasible_fault (plan_tasks plan.now) }
{
    check_alone(plan)?;
    let longest = plan.column(|task| task.period_max);
    let assignment = Assignment {
        tasks: &plan.tasks,
        periods: &longest,
    };
    match assignment.first_unschedulable() {
        Some(i) => Err(CallError::Infeasible((i + 1) as u32)),
        None => Ok(()),
    }
}
