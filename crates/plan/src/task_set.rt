ghost use Rattle.std.specs.Prelude.{◌≡◌, [], ◌∷◌, ◌++◌, ◌<◌, ◌≤◌, length, min, take};
ghost use Rattle.std.specs.List.{AllZip};
ghost use Rattle.plan.specs.Tasks.{max_tasks};

use super::record::{PerTask, Plan};
use super::tasks::Task;
use std::ops::DerefSlice;

// Tasks, highest priority first, of which no rule is known: sixteen at most. Not the library's vector, which is no
// `Copy`.
#[derive(Clone, Copy)]
pub struct TaskSet {
    pub rows: [Task; Plan::MAX_TASKS],
    pub count: usize,
    ghost few: { count ≤ max_tasks },
}

impl TaskSet {
    ghost use Rattle.plan.specs.TaskSets.{tasks_in};

    // The first tasks of a table of rows; all of it where more are asked for.
    pub fn new(tasks: usize, rows: [Task; Plan::MAX_TASKS]) -> TaskSet
        ensures tasks { tasks_in result ≡ take tasks rows }
        ensures rows { result.rows ≡ rows }
        ensures count { result.count ≡ min tasks max_tasks }
    {
        TaskSet {
            rows,
            count: tasks.min(Plan::MAX_TASKS),
        }
    }

    // The tasks.
    pub fn as_slice(&self) -> &[Task]
        ensures value { result.now ≡ tasks_in self.now }
        ensures fits { length result.now ≤ max_tasks }
    {
        &self.rows[..self.count]
    }

    // How many there are.
    pub fn len(&self) -> usize
        ensures value { result ≡ length (tasks_in self.now) }
        ensures fits { result ≤ max_tasks }
    {
        self.as_slice().len()
    }

    // Appends a task.
    pub fn push(&mut self, task: Task)
        requires { length (tasks_in self.old) < max_tasks }
        ensures items { tasks_in self.new ≡ tasks_in self.old ++ task ∷ [] }
    {
        self.rows[self.count] = task;
        self.count += 1;
    }

    // A number of each task.
    pub fn column<F: Fn(Task) -> u32>(&self, number: F) -> PerTask
        requires { F.IsAlwaysCallable number }
        ensures { AllZip (F.post number) (tasks_in self.now) result.items }
    {
        let mut column = PerTask::new();
        for task in self.as_slice() {
            column.push(number(*task));
        }
        column
    }
}

impl DerefSlice for TaskSet {
    ghost use Rattle.plan.specs.TaskSets.{tasks_in};

    type Elem = Task;

    ghost deref_gives = { λ s xs. (xs ≡ tasks_in s) × (length xs ≤ max_tasks) };

    fn deref(&self) -> &[Task] {
        self.as_slice()
    }
}
