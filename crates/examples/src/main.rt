#![tactic(auto)]

// Examples and tests that are run, not proved: each line says what was tried and what came out.
mod space; // space.rt: a space whose numbers are all the same
mod words; // words.rt: a text's pieces and numbers
mod file; // file.rt: plan files, from words and from tasks
mod example; // example.rt: a line of file stdin
mod show; // show.rt: refusals, numbers and bytes as text
mod cases; // cases.rt: the examples of file stdin, by each operation and the listing
mod small; // small.rt: plans of up to three tasks, and their period assignments
mod draw; // draw.rt: small plans from a fixed sequence
mod clock; // clock.rt: TIMES against a clock
mod enumeration; // enumeration.rt: all period assignments of a small plan
mod rounds; // rounds.rt: the rounds of CHEAPEST by plain scans over them
mod planner; // planner.rt: CHEAPEST against the plain rounds, and these against the enumeration
mod chains; // chains.rt: FEEDERS against an enumeration of chains
mod many; // many.rt: all of these over many drawn plans

use input::ReadFailure;

// Tells nothing but what came out, and ends with status 0: a read that fails ends the input, and a write that fails
// leaves output out.
fn main(rt: HostRuntime) {
    let mut input = [0u8; 65536];
    let (Ok(size) | Err(ReadFailure { size, .. })) = input::read_input(rt.stdin(), &mut input);
    cases::run(&rt, &input[..size]);
    let _ = many::run(&rt);
}
