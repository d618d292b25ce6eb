ghost use Rattle.std.specs.Prelude.{◌≡◌, ◌≤◌, IfOk, IfSome, length};
ghost use Rattle.plan.specs.Faults.{none};
ghost use Rattle.plan.specs.Tasks.{max_tasks};
ghost use Rattle.plan.specs.Files.{file_fault, tasks_of};
ghost use Rattle.plan.specs.TaskSets.{tasks_in};
ghost use Rattle.plan.specs.Promises.{plan_tasks};
ghost use Rattle.response.specs.Analysis.{slack_list, missed_count, first_missed};
ghost use Rattle.response.specs.Errors.{times_error};
ghost use Rattle.response.specs.Promises.{bounds_fault, periods_fault, number_or_none, times_answer, Analyses};

use super::assignment::Assignment;
use super::errors::TimesError;
use super::utilization::utilization_of;
use plan::{Plan, TaskSet};

// TIMES's answer: how many tasks miss their deadlines, and the first of them, counted from 1.
#[derive(Clone, Copy, Debug, Default, PartialEq, Eq)]
pub struct Times {
    pub missed: u32,
    pub first: Option<u32>,
}

// Rule 23: the first task whose period is outside its bounds. A loop, since `position` of pairs would take them apart
// in a closure and its answer in a match.
fn check_bounds(tasks: &TaskSet, periods: &[u32]) -> Result<(), TimesError>
    requires { length periods.now ≡ length (tasks_in tasks.now) }
    ensures { times_error result ≡ bounds_fault (tasks_in tasks.now) periods.now }
{
    for (i, (task, period)) in tasks.iter().zip(periods).enumerate() {
        if !(task.period_min..=task.period_max).contains(period) {
            return Err(TimesError::OutOfBounds((i + 1) as u32));
        }
    }
    Ok(())
}

// Rules 21 to 23, of any tasks, periods and a space of so many numbers.
#[tactic(auto, using(crate::proofs::Refusals::rules_in_order))]
pub fn check_periods(tasks: &TaskSet, periods: &[u32], space: usize) -> Result<(), TimesError>
    ensures { times_error result ≡ periods_fault (tasks_in tasks.now) periods.now space }
{
    let n = tasks.len();
    if periods.len() != n {
        return Err(TimesError::PeriodsLength);
    }
    if space != n {
        return Err(TimesError::SpaceLength);
    }
    check_bounds(tasks, periods)
}

// Writes each task's slack, by the utilization of the tasks above it: where they leave nothing of the processor, a
// climb up to the longest response time would take up to two million steps.
fn analyse(assignment: &Assignment, slacks: &mut [i32])
    requires { length slacks.old ≡ length assignment.now.periods.now }
    ensures { slacks.new ≡ slack_list assignment.now.tasks.now assignment.now.periods.now }
{
    let mut above = 0;
    for (i, slack) in slacks.iter_mut().enumerate() {
        *slack = assignment.slack(i, above);
        above += utilization_of(&assignment.tasks[i], assignment.periods[i]);
    }
}

// How many of the slacks are below 0: of the numbers that were written, as their definition counts them.
fn missed_count(slacks: &[i32]) -> u32
    requires { length slacks.now ≤ max_tasks }
    ensures { result ≡ missed_count slacks.now }
{
    slacks.iter().filter(|&&slack| slack < 0).count() as u32
}

// The first task whose slack is below 0, counted from 1; of the same numbers.
fn first_missed(slacks: &[i32]) -> Option<u32>
    requires { length slacks.now ≤ max_tasks }
    ensures is { number_or_none result ≡ first_missed slacks.now }
    ensures first { IfSome result (λ task. 1 ≤ task) }
{
    slacks
        .iter()
        .position(|&slack| slack < 0)
        .map(|i| (i + 1) as u32)
}

// TIMES of a plan that was loaded.
#[tactic(auto, using(crate::proofs::Refusals::passed_rules))]
pub fn times_of(plan: &Plan, periods: &[u32], slacks: &mut [i32]) -> Result<Times, TimesError>
    ensures analyses { Analyses none (plan_tasks plan.now) periods.now slacks.old slacks.new (times_answer result) }
    ensures first { IfOk result (λ t. IfSome t.first (λ task. 1 ≤ task)) }
{
    check_periods(&plan.tasks, periods, slacks.len())?;
    let assignment = Assignment {
        tasks: &plan.tasks,
        periods,
    };
    analyse(&assignment, slacks);
    Ok(Times {
        missed: missed_count(slacks),
        first: first_missed(slacks),
    })
}

// TIMES: the slacks of a file's tasks at given periods, or a refusal that leaves the space as it was.
pub fn response_times(file: &[u8], periods: &[u32], slacks: &mut [i32]) -> Result<Times, TimesError>
    ensures analyses { Analyses (file_fault file.now) (tasks_of file.now)
        periods.now slacks.old slacks.new (times_answer result) }
    ensures first { IfOk result (λ t. IfSome t.first (λ task. 1 ≤ task)) }
{
    let loaded = plan::load_plan(file)?;
    times_of(&loaded.plan, periods, slacks)
}
