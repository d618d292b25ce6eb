ghost use Rattle.std.specs.Prelude.{◌≡◌, ◌≤◌, length};
ghost use Rattle.std.specs.List.{AllZip};
ghost use Rattle.plan.specs.Tasks.{max_tasks, AllValid};
ghost use Rattle.plan.specs.TaskSets.{tasks_in};

use super::task_set::TaskSet;
use super::tasks::Task;
use arrayvec::ArrayVec;

// One number for each task, as the periods of an assignment.
pub type PerTask = ArrayVec<u32, { Plan::MAX_TASKS }>;

// A plan that the rules of a file let pass: the tasks, highest priority first.
#[derive(Clone, Copy)]
pub struct Plan {
    pub tasks: TaskSet,
    ghost some: { 1 ≤ length (tasks_in tasks) },
    ghost few: { length (tasks_in tasks) ≤ max_tasks },
    ghost valid: { AllValid (tasks_in tasks) },
}

impl Plan {
    pub const MAX_TASKS: usize = 16;

    pub const MAX_TICKS: u32 = 1_000_000;

    pub const MAX_WEIGHT: u32 = 1_000;

    pub const MAX_BLOCKING: u32 = 1_000_000;

    pub const MAX_JITTER: u32 = 1_000_000;

    // Versions of the file, from 1 on.
    pub const MAX_VERSION: u16 = 2;

    pub const MIN_FILE: usize = 16;

    pub const MAX_FILE: usize = 2_048;

    // The longest canonical form: sixteen tasks in version 2.
    pub const MAX_FORM: usize = 720;

    // The constructor that the requirement wants on the plan type; it asks for the type's own facts.
    pub fn new(tasks: TaskSet) -> Plan
        requires some { 1 ≤ length (tasks_in tasks) }
        requires valid { AllValid (tasks_in tasks) }
        ensures { result.tasks ≡ tasks }
    {
        Plan { tasks }
    }

    // A number of each task.
    pub fn column<F: Fn(Task) -> u32>(&self, number: F) -> PerTask
        requires { F.IsAlwaysCallable number }
        ensures { AllZip (F.post number) (tasks_in self.now.tasks) result.items }
    {
        self.tasks.column(number)
    }
}
