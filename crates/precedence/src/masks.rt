ghost use Rattle.std.specs.Prelude.{◌≡◌, ◌<◌, ◌≤◌, count_ones, length, map, take};
ghost use Rattle.plan.specs.Tasks.{max_tasks};
ghost use Rattle.precedence.specs.Inner.{AllOfTasks, HasNamed, HasChains, joined_through};

use super::pairs::Pair;
use plan::Plan;

// A set of tasks for each task: bit 0 of a set stands for task 1.
type Masks = [u16; Plan::MAX_TASKS];

// Of each task, those that a pair names as its predecessors.
fn named_masks(pairs: &[Pair]) -> Masks
    requires { AllOfTasks max_tasks pairs.now }
    ensures { HasNamed pairs.now result }
{
    let mut masks = [0; Plan::MAX_TASKS];
    for pair in pairs {
        masks[usize::from(pair.successor - 1)] |= 1 << (pair.predecessor - 1);
    }
    masks
}

// Where a task is a predecessor, its own predecessors are, too.
fn join_through(masks: &mut Masks, task: usize)
    requires { task < max_tasks }
    ensures { masks.new ≡ joined_through task masks.old }
{
    let own = masks[task];
    for mask in masks.iter_mut() {
        if (*mask >> task) & 1 == 1 {
            *mask |= own;
        }
    }
}

// Each task's predecessors: one pass of Warshall's algorithm.
pub(crate) fn predecessor_masks(pairs: &[Pair]) -> Masks
    requires { AllOfTasks max_tasks pairs.now }
    ensures { HasChains pairs.now result }
{
    let mut masks = named_masks(pairs);
    for task in 0..Plan::MAX_TASKS {
        join_through(&mut masks, task);
    }
    masks
}

// How many predecessors each of the first tasks has, one number a task.
pub(crate) fn count_masks(masks: &Masks, counts: &mut [u8])
    requires { length counts.old ≤ max_tasks }
    ensures { counts.new ≡ map count_ones (take (length counts.old) masks.now) }
{
    for (i, count) in counts.iter_mut().enumerate() {
        *count = masks[i].count_ones() as u8;
    }
}
