#![tactic(auto)]

// Program `timetable`: a plan file from standard input, its listing to standard output. A refused plan has one, too.
use std::env::Env;

fn main(rt: HostRuntime) {
    input::run(
        "timetable",
        rt.arg(1, &mut []),
        rt.stdin(),
        &rt.stdout(),
        &rt.stderr(),
        |file| Ok(listing::list_input(file)),
    );
}
