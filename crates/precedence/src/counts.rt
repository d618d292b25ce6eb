ghost use Rattle.std.specs.Prelude.{◌≤◌, IfOk, IfSome, length};
ghost use Rattle.plan.specs.Faults.{none};
ghost use Rattle.plan.specs.Files.{file_fault, tasks_of};
ghost use Rattle.plan.specs.Promises.{plan_tasks};
ghost use Rattle.precedence.specs.Promises.{precedence_answer, CountsPredecessors};

use super::errors::PrecedenceError;
use super::masks::{count_masks, predecessor_masks};
use super::pairs::{first_misordered, read_pairs};
use plan::Plan;

// FEEDERS of a plan that was loaded.
pub fn predecessors_of(
    plan: &Plan,
    pairs: &[u8],
    counts: &mut [u8],
) -> Result<Option<u32>, PrecedenceError>
    ensures precedes { CountsPredecessors none (length (plan_tasks plan.now))
        pairs.now counts.old counts.new (precedence_answer result) }
    ensures first { IfOk result (λ pair. IfSome pair (λ number. 1 ≤ number)) }
{
    let tasks = plan.tasks.len();
    let pairs = read_pairs(pairs, tasks)?;
    if counts.len() != tasks {
        return Err(PrecedenceError::SpaceLength);
    }
    count_masks(&predecessor_masks(&pairs), counts);
    Ok(first_misordered(&pairs))
}

// FEEDERS: how many tasks precede each task of a file, by a list of pairs, two bytes each; answers the first pair,
// counted from 1, whose predecessor does not stand above its successor. A refusal leaves the space as it was.
pub fn predecessors(
    file: &[u8],
    pairs: &[u8],
    counts: &mut [u8],
) -> Result<Option<u32>, PrecedenceError>
    ensures precedes { CountsPredecessors (file_fault file.now) (length (tasks_of file.now))
        pairs.now counts.old counts.new (precedence_answer result) }
    ensures first { IfOk result (λ pair. IfSome pair (λ number. 1 ≤ number)) }
{
    let loaded = plan::load_plan(file)?;
    predecessors_of(&loaded.plan, pairs, counts)
}
