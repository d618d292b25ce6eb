ghost use Rattle.std.specs.Prelude.{◌≡◌, ◌≤◌};
ghost use Rattle.plan.specs.Tasks.{Valid, AllValid};
ghost use Rattle.response.specs.Analysis.{max_response};
ghost use Rattle.boundary.specs.Inner.{begin_at, begin_below, BeginsBelow};

use plan::Task;
use response::own_demand;

// Where the climbs of a task may begin, the busy period of a task above it being known: its own is no shorter than
// that, less that task's blocking, which it does not see, plus its own demand. Where the blocking exceeds its own
// demand only the latter is known.
pub fn begin_below(task: &Task, above: &Task, busy: u32) -> u32
    requires { Valid task.now × (busy ≤ max_response) }
    ensures { result ≡ begin_below task.now above.now busy }
{
    let own = own_demand(task);
    match own.checked_sub(above.blocking) {
        Some(later) => busy + later,
        None => own,
    }
}

// The same of task i and the task right above it; of the first task, which has none above, its own demand: the time is
// left unread. No Option of a time: where periods are raised, none says that a task above misses.
pub fn begin_at(tasks: &[Task], i: usize, above: u32) -> u32
    requires valid { AllValid tasks.now }
    requires begins { BeginsBelow tasks.now i above }
    ensures { result ≡ begin_at tasks.now i above }
{
    let task = &tasks[i];
    if i == 0 {
        return own_demand(task);
    }
    begin_below(task, &tasks[i - 1], above)
}
