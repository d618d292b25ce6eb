use super::example::{Call, Example};
use super::file::TestFile;
use super::show::{Bytes, Numbers, Refusal};
use super::space::are_all;
use listing::{INPUT_SIZE, Listing};
use optimizer::{Answer, WORK};
use plan::{Fault, WriteError};
use response::Times;
use std::io;

// What an operation gives, or the default with its refusal.
fn given<T: Default + Drop, E>(answer: Result<T, E>) -> (T, Refusal)
where
    Fault: From<E>,
{
    match answer {
        Ok(given) => (given, Refusal(None)),
        Err(error) => (T::default(), Refusal(Some(Fault::from(error)))),
    }
}

// NAME's answers for every task number from 0 to one above the last.
fn show_names(rt: &impl Print, file: &[u8], tasks: u32) -> io::Result<()> {
    for task in 0..=tasks.saturating_add(1) {
        print!(rt; " [{}]", plan::task_name(file, task).escape_ascii())?;
    }
    Ok(())
}

fn try_read(rt: &impl Print, file: &[u8]) -> io::Result<()> {
    let (tasks, refusal) = given(plan::read_plan(file));
    print!(rt; "{refusal} {tasks}")?;
    show_names(rt, file, tasks)?;
    println!(rt;)
}

// WRITE with the space of the call, as far as the array goes; its bytes are 7.
fn try_write(rt: &impl Print, file: &[u8], space: usize) -> io::Result<()> {
    let mut bytes = [7; INPUT_SIZE];
    let space = &mut bytes[..space.min(INPUT_SIZE)];
    let answer = plan::write_plan(file, space);
    let size = match answer {
        Ok(size) | Err(WriteError::SpaceLength { size }) => size,
        Err(WriteError::Read(_)) => 0,
    };
    let Fault { number, place } = answer.err().map_or(Fault::none(), Fault::from);
    println!(rt; " {number} {place} size {size} bytes{}", Bytes(space))
}

// TIMES with the space and the periods of the call; the numbers of the space are 7.
fn try_times(rt: &impl Print, file: &[u8], periods: &[u32], space: usize) -> io::Result<()> {
    let mut slacks = [7; 17];
    let slacks = &mut slacks[..space.min(17)];
    let (Times { missed, first }, refusal) = given(response::response_times(file, periods, slacks));
    let first = first.unwrap_or(0);
    println!(rt;
        "{refusal} missed {missed} first {first} slacks{}",
        Numbers(slacks)
    )
}

// How a call left a work space whose numbers were 7.
fn state(work: &[u32]) -> &'static str {
    if are_all(work, 7) {
        "untouched"
    } else if are_all(work, 0) {
        "zero"
    } else {
        "left over"
    }
}

// CHEAPEST with the spaces of the call; the numbers of both are 7.
fn try_cheapest(
    rt: &impl Print,
    file: &[u8],
    budget: u64,
    space: usize,
    room: usize,
) -> io::Result<()> {
    let mut periods = [7; 17];
    let mut work = [7; WORK];
    let periods = &mut periods[..space.min(17)];
    let work = &mut work[..room.min(WORK)];
    let Answer {
        fault: Fault { number, place },
        cost,
        rounds,
        bound,
    } = optimizer::cheapest_periods(file, budget, periods, work).into();
    let periods = Numbers(periods);
    let work = state(work);
    println!(rt;
        " {number} {place} cost {cost} rounds {rounds} bound {bound} periods{periods} work {work}"
    )
}

// FEEDERS with the space and the list of the call; the bytes of the space are 7.
fn try_feeders(rt: &impl Print, file: &[u8], pairs: &[u8], space: usize) -> io::Result<()> {
    let mut counts = [7; INPUT_SIZE];
    let counts = &mut counts[..space.min(INPUT_SIZE)];
    let answer = precedence::predecessors(file, pairs, counts);
    let pair = answer.ok().flatten().unwrap_or(0);
    let Fault { number, place } = answer.err().map_or(Fault::none(), Fault::from);
    println!(rt; " {number} {place} pair {pair} counts{}", Numbers(counts))
}

// The listing of a file, as program timetable writes it, with the budget and the room of the call.
fn list(file: &[u8], budget: u64, room: usize) -> Listing {
    let mut work = [7; WORK];
    listing::list_plan(file, budget, &mut work[..room.min(WORK)])
}

fn show_listing(rt: &impl Print, listing: &Listing) -> io::Result<()> {
    println!(rt;)?;
    rt.write_all(listing)
}

// What program timetable writes of a file; nothing where it ends past its space.
fn try_print(rt: &impl Print, file: &TestFile) -> io::Result<()> {
    match file.whole() {
        Some(bytes) => show_listing(rt, &listing::list_input(bytes)),
        None => println!(rt;),
    }
}

fn try_example(rt: &impl Print, example: &Example) -> io::Result<()> {
    rt.write_all(example.label)?;
    print!(rt; ":")?;
    let Some(call) = &example.call else {
        return Ok(());
    };
    let file = example.file.bytes();
    match call {
        Call::Read => try_read(rt, file),
        Call::Write { space } => try_write(rt, file, *space),
        Call::Times { space, periods } => try_times(rt, file, periods, *space),
        Call::Cheapest {
            budget,
            space,
            room,
        } => try_cheapest(rt, file, *budget, *space, *room),
        Call::Feeders { space, pairs } => try_feeders(rt, file, pairs, *space),
        Call::List { budget, room } => show_listing(rt, &list(file, *budget, *room)),
        Call::Print => try_print(rt, &example.file),
    }
}

// The examples of the lines that a line feed ends and that are neither empty nor a comment. What a line leaves out
// counts as 0 or is empty, of an unknown call only the label is shown, and output that cannot be written is left out.
pub(crate) fn run(rt: &impl Print, lines: &[u8]) {
    for line in lines.split_inclusive(|byte| *byte == b'\n') {
        let Some(line) = line.strip_suffix(b"\n") else {
            continue;
        };
        if line.is_empty() || line.starts_with(b"#") {
            continue;
        }
        let _ = try_example(rt, &Example::parse(line));
    }
}
