ghost use Rattle.desk.specs.Promises.{Calls};
ghost use Rattle.desk.specs.Inner.{Finds};

use super::block::Carried;
use optimizer::{Answer, WORK};
use plan::Plan;

// What the block of a file carries: CHEAPEST's outcome of its tasks, or a refusal.
fn find_periods(file: &[u8], budget: u64) -> Carried
    ensures { Finds file.now budget result }
{
    let mut periods = [0; Plan::MAX_TASKS];
    match plan::load_plan(file) {
        Ok(loaded) => {
            let n = loaded.plan.tasks.len();
            let mut work = [0; WORK];
            let ended = optimizer::cheapest_of(&loaded.plan, budget, &mut periods[..n], &mut work);
            Carried {
                answer: ended.into(),
                tasks: n as u32,
                periods,
            }
        }
        Err(error) => Carried {
            answer: Answer::from(Err(error.into())),
            tasks: 0,
            periods,
        },
    }
}

// DESK: CHEAPEST's outcome of a file's tasks, or a refusal, into the caller's block; returns the block's number, or 25
// for a block that is not 100 bytes, which is left as it was. C is handed the number, so it is no error of an enum.
// `desk/desk.h` declares it.
#[unsafe(no_mangle)]
#[tactic(auto, using(crate::proofs::ExactRelease::exact_desk))]
pub extern "C" fn desk_call(file: &[u8], block: &mut [u8], budget: u64) -> u32
    ensures { Calls file.now budget block.old block.new result }
{
    if block.len() != Carried::SIZE {
        return 25;
    }
    let carried = find_periods(file, budget);
    block.copy_from_slice(&carried.to_bytes());
    carried.answer.fault.number
}
