ghost use Rattle.std.specs.Prelude.{◌≡◌, ◌+◌, ◌*◌, ◌≤◌};
ghost use Rattle.plan.specs.Tasks.{max_ticks, max_jitter, Valid};
ghost use Rattle.response.specs.Analysis.{own_demand, interference, deadline, max_response};
ghost use Rattle.response.specs.Inner.{Interferes, last_end};

use plan::Task;

// A task's deadline at a period.
pub fn deadline(task: &Task, period: u32) -> u32
    ensures { result ≡ deadline task.now period }
{
    period.min(task.deadline_cap)
}

// The last t with which a task at a period meets its deadline, 0 where there is none.
pub fn last_end(task: &Task, period: u32) -> u32
    ensures { result ≡ last_end task.now period }
{
    deadline(task, period).saturating_sub(task.jitter)
}

// What a task demands for itself.
pub fn own_demand(task: &Task) -> u32
    requires { Valid task.now }
    ensures { result ≡ own_demand task.now }
{
    task.wcet + task.blocking
}

// What a task, at its period, demands by t.
pub fn interference(task: &Task, period: u32, t: u32) -> u64
    requires { Interferes task.now period t }
    ensures is { result ≡ interference task.now period t }
    ensures few { result ≤ max_ticks * (max_response + max_jitter) }
{
    // `div_ceil` makes the climb slower by a tenth.
    u64::from(task.wcet) * u64::from((t + task.jitter + period - 1) / period)
}
