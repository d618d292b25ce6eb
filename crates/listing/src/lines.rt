ghost use Rattle.std.specs.Prelude.{◌≡◌, [], ◌∷◌, ◌++◌, ◌+◌, ◌*◌, ◌≤◌, length};
ghost use Rattle.plan.specs.Tasks.{max_tasks};
ghost use Rattle.plan.specs.Promises.{plan_tasks};
ghost use Rattle.response.specs.Inner.{Limits};
ghost use Rattle.optimizer.specs.Answers.{stop_fault};
ghost use Rattle.listing.specs.Text.{decimal, fields, line, cost_word, rounds_word};
ghost use Rattle.listing.specs.Text.{refusal_fields, stop_fields, task_lines};
ghost use Rattle.listing.specs.Inner.{line_size, listing_size};

use super::writer::{Listing, put_labelled, put_number};
use optimizer::Stop;
use plan::{Fault, PlanFile};
use response::Assignment;

// A refusal's number and place, and the byte after them.
fn refusal(fault: Fault, end: u8) -> Listing
    ensures puts { result.items ≡ fields (refusal_fields fault) end }
    ensures few { length result.items ≤ 50 }
{
    let mut text = Listing::new();
    put_labelled(&mut text, b"refused", u64::from(fault.number), b' ');
    put_number(&mut text, u64::from(fault.place), end);
    text
}

// The longest line of a refusal.
pub const REFUSAL_SIZE: usize = 50;

// A refusal's line.
pub fn list_refusal(fault: Fault) -> Listing
    ensures is { result.items ≡ line (refusal_fields fault) }
    ensures few { length result.items ≤ REFUSAL_SIZE }
{
    refusal(fault, b'\n')
}

// A stop's line, with its bound, its rounds and the incumbent's cost.
pub fn list_stop(stop: Stop, bound: u64, rounds: u64, cost: u64) -> Listing
    ensures { result.items ≡ line (stop_fields (stop_fault stop) bound rounds cost) }
{
    let mut text = refusal(stop.into(), b' ');
    put_labelled(&mut text, b"bound", bound, b' ');
    put_labelled(&mut text, b"rounds", rounds, b' ');
    put_labelled(&mut text, b"best", cost, b'\n');
    text
}

// A task's line: its name, its period and its response time.
fn put_task(text: &mut Listing, name: &[u8], period: u32, time: u32)
    requires { length text.old.items + (length name.now + 43) ≤ listing_size }
    ensures puts { text.new.items
        ≡ text.old.items ++ line (name.now ∷ decimal period ∷ decimal time ∷ []) }
    ensures few { length text.new.items ≤ length text.old.items + (length name.now + 43) }
{
    put_labelled(text, name, u64::from(period), b' ');
    put_number(text, u64::from(time), b'\n');
}

// The lines of a file's tasks at given periods: an answer's, at which every task responds; 0 would stand for none.
// Periods are lent, and no `Assignment`: in place of their limits it would be asked that its tasks are the file's.
fn put_tasks(text: &mut Listing, file: &PlanFile, periods: &[u32])
    requires room { length text.old.items + line_size * max_tasks ≤ listing_size }
    requires limits { Limits (plan_tasks file.now.plan) periods.now }
    ensures { let s = file.now.located.file.now in let xs = periods.now in
        text.new.items ≡ text.old.items ++ task_lines s xs (length xs) }
{
    let assignment = Assignment {
        tasks: &file.plan.tasks,
        periods,
    };
    for (i, &period) in periods.iter().enumerate() {
        let time = assignment.response_time(i).unwrap_or(0);
        put_task(text, file.name(i), period, time);
    }
}

// An answer: its cost and its rounds, then the lines of the file's tasks.
pub fn list_answer(file: &PlanFile, periods: &[u32], cost: u64, rounds: u64) -> Listing
    requires { Limits (plan_tasks file.now.plan) periods.now }
    ensures { let s = file.now.located.file.now in let xs = periods.now in
        result.items
        ≡ line (cost_word ∷ decimal cost ∷ rounds_word ∷ decimal rounds ∷ [])
        ++ task_lines s xs (length xs) }
{
    let mut text = Listing::new();
    put_labelled(&mut text, b"cost", cost, b' ');
    put_labelled(&mut text, b"rounds", rounds, b'\n');
    put_tasks(&mut text, file, periods);
    text
}
