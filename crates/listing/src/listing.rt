ghost use Rattle.std.specs.Prelude.{◌≡◌, length, MatchResult};
ghost use Rattle.plan.specs.Files.{tasks_of};
ghost use Rattle.optimizer.specs.Promises.{outcome, cleared};
ghost use Rattle.listing.specs.Text.{line, refusal_fields, listing_of};
ghost use Rattle.listing.specs.Promises.{timetable_of};

use super::lines::{list_answer, list_refusal, list_stop};
use super::writer::Listing;
use optimizer::{Conclusion, WORK};
use plan::{Fault, Plan};

// One byte more than a plan file may have, so that a longer one is refused for its length.
pub const INPUT_SIZE: usize = Plan::MAX_FILE + 1;

const BUDGET: u64 = 100_000;

// The text of an answer or a stop, or else the refusal.
fn list_conclusion(file: &[u8], budget: u64, work: &mut [u32]) -> Result<Listing, Fault>
    ensures prints { let text = listing_of file.now budget (length work.old) in
        MatchResult result (λ listing. listing.items ≡ text) (λ fault. line (refusal_fields fault) ≡ text) }
    ensures work { let s = file.now in
        work.new ≡ cleared (outcome s budget (length (tasks_of s)) (length work.old)) work.old }
{
    let loaded = plan::load_plan(file)?;
    // A space with a number for each task.
    let mut space = loaded.plan.column(|_| 0);
    let periods = space.as_mut_slice();
    match optimizer::cheapest_of(&loaded.plan, budget, periods, work)? {
        Conclusion::Answered { cost, rounds } => Ok(list_answer(&loaded, periods, cost, rounds)),
        Conclusion::Stopped {
            stop,
            cost,
            rounds,
            bound,
        } => Ok(list_stop(stop, bound, rounds, cost)),
    }
}

// The text of a plan's cheapest periods, or of the refusal or the stop.
pub fn list_plan(file: &[u8], budget: u64, work: &mut [u32]) -> Listing
    ensures prints { result.items ≡ listing_of file.now budget (length work.old) }
    ensures work { let s = file.now in
        work.new ≡ cleared (outcome s budget (length (tasks_of s)) (length work.old)) work.old }
{
    list_conclusion(file, budget, work).unwrap_or_else(list_refusal)
}

// What program `timetable` writes of its input.
pub fn list_input(input: &[u8]) -> Listing
    ensures { result.items ≡ timetable_of input.now }
{
    let mut work = [0u32; WORK];
    list_plan(input, BUDGET, &mut work)
}
