ghost use Rattle.std.specs.Prelude.{◌≡◌, ◌++◌, ◌+◌, ◌*◌, ◌≤◌, length, MatchResult};
ghost use Rattle.plan.specs.Tasks.{max_tasks};
ghost use Rattle.plan.specs.Promises.{plan_tasks};
ghost use Rattle.listing.specs.Inner.{line_size, listing_size};
ghost use Rattle.listing.specs.Text.{line, refusal_fields};
ghost use Rattle.feeders.specs.Text.{count_lines, Lists};

use listing::{Listing, list_refusal, put_labelled};
use plan::{Fault, Plan, PlanFile};

// The lines of a file's tasks with their counts.
fn put_counts(text: &mut Listing, file: &PlanFile, counts: &[u8])
    requires room { length text.old.items + line_size * max_tasks ≤ listing_size }
    requires sized { length counts.now ≡ length (plan_tasks file.now.plan) }
    ensures puts { let s = file.now.located.file.now in let cs = counts.now in
        text.new.items ≡ text.old.items ++ count_lines s cs (length cs) }
    ensures few { length text.new.items ≤ length text.old.items + line_size * max_tasks }
{
    for (i, &count) in counts.iter().enumerate() {
        put_labelled(text, file.name(i), u64::from(count), b'\n');
    }
}

// The text of an answer, or else the refusal.
fn list_counts(file: &[u8], pairs: &[u8]) -> Result<Listing, Fault>
    ensures { let s = file.now in let list = pairs.now in
        MatchResult result (λ text. Lists s list text.items) (λ fault. Lists s list (line (refusal_fields fault))) }
{
    let loaded = plan::load_plan(file)?;
    let mut space = [0; Plan::MAX_TASKS];
    let counts = &mut space[..loaded.plan.tasks.len()];
    let pair = precedence::predecessors_of(&loaded.plan, pairs, counts)?;
    let mut text = Listing::new();
    put_counts(&mut text, &loaded, counts);
    put_labelled(&mut text, b"pair", u64::from(pair.unwrap_or(0)), b'\n');
    Ok(text)
}

// What program `feeders` prints of a plan file and a list of pairs.
pub(crate) fn list_predecessors(file: &[u8], pairs: &[u8]) -> Listing
    ensures { Lists file.now pairs.now result.items }
{
    list_counts(file, pairs).unwrap_or_else(|fault| list_refusal(fault))
}
