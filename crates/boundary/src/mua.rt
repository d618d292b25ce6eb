ghost use Rattle.std.specs.Prelude.{◌≡◌};
ghost use Rattle.plan.specs.Tasks.{period_maxs};
ghost use Rattle.response.specs.Analysis.{schedulable};
ghost use Rattle.response.specs.Inner.{some_time, busy_in_time};
ghost use Rattle.boundary.specs.Mua.{mua};
ghost use Rattle.boundary.specs.Raising.{Unschedulable, Raises, Raised};

use super::begins::begin_at;
use super::misses::{last_miss_from, lowest_start};
use plan::{PerTask, Task};
use response::Assignment;

// Raises the period of task i as far as the assignment stays unschedulable; the climb of the task may begin at a time
// that is known. Its busy period then, none where it misses its deadline. Parameters as in `misses`.
fn raise(tasks: &[Task], u: &mut [u32], i: usize, most: u32, begin: u32) -> Option<u32>
    requires { Raises tasks.now u.old i most begin }
    ensures is { Raised tasks.now u.old i most u.new }
    ensures responds { result ≡ some_time (busy_in_time tasks.now u.new i) }
{
    let least = u[i];
    u[i] = most;
    let assignment = Assignment { tasks, periods: u };
    let own = assignment.busy_from(i, assignment.last_end(i), begin)?;
    let miss = last_miss_from(tasks, u, i, own, least, most, lowest_start(tasks));
    u[i] = miss.last;
    (own + tasks[i].jitter <= miss.last).then_some(own)
}

// Each task in turn, its climb begun by the busy period of the task above. Below a task that misses its deadline at
// periods that are final every period goes to its maximum.
fn raise_all(tasks: &[Task], u: &mut [u32])
    requires { Unschedulable tasks.now u.old }
    ensures { let ts = tasks.now in u.new ≡ mua (schedulable ts) (period_maxs ts) u.old }
{
    // none misses yet; the first task has none above: `begin_at` leaves the time unread
    let mut above = Some(0);
    for (i, task) in tasks.iter().enumerate() {
        let most = task.period_max;
        match above {
            Some(busy) => above = raise(tasks, u, i, most, begin_at(tasks, i, busy)),
            None => u[i] = most,
        }
    }
}

// The maximal unschedulable assignment above an unschedulable node.
pub fn mua_of(node: &Assignment) -> PerTask
    requires { Unschedulable node.now.tasks.now node.now.periods.now }
    ensures { let ts = node.now.tasks.now in
        result.items ≡ mua (schedulable ts) (period_maxs ts) node.now.periods.now }
{
    let mut u = PerTask::try_from(node.periods).unwrap();
    raise_all(node.tasks, &mut u);
    u
}
