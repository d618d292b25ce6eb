ghost use Rattle.std.specs.Prelude.{◌≡◌, ◌+◌, ◌*◌, ◌≤◌};
ghost use Rattle.plan.specs.Tasks.{max_ticks, max_blocking, Valid};
ghost use Rattle.response.specs.Analysis.{max_response};
ghost use Rattle.response.specs.Inner.{whole, utilization, BeginsByUtilization};

use plan::Task;

// The whole processor; utilizations are parts of it.
const WHOLE: u64 = 1 << 32;

// A task's utilization at a period, rounded down.
pub fn utilization_of(task: &Task, period: u32) -> u64
    requires { Valid task.now × (1 ≤ period) }
    ensures is { result ≡ utilization task.now period }
    ensures few { result ≤ max_ticks * whole }
{
    u64::from(task.wcet) * WHOLE / u64::from(period)
}

// Where the climb of a task up to a limit may begin by the utilization of the tasks above: what they leave idle by then
// holds its own demand. Past the limit where they leave nothing.
pub fn begin_by_utilization(own: u32, above: u64, limit: u32) -> u32
    requires { (1 ≤ own) × (own ≤ max_ticks + max_blocking) × (limit ≤ max_response) }
    ensures { BeginsByUtilization own above limit result }
{
    if WHOLE <= above {
        return limit + 1;
    }
    (u64::from(own) * WHOLE / (WHOLE - above)).min(u64::from(limit) + 1) as u32
}
