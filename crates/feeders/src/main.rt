#![tactic(auto)]

// Program `feeders`: a plan file and a list of pairs, named on its command line; each task's name with how many tasks
// precede it, and the first misordered pair, to standard output. A refusal is printed there, too.
mod files; // files.rt: the files that its arguments name
mod text; // text.rt: what it prints

use files::{is_given, read_named};
use listing::INPUT_SIZE;
use precedence::MAX_LIST;
use std::io;
use text::list_predecessors;

// One byte more than a list of pairs may have, so that a longer one is refused for its length.
const LIST_SIZE: usize = MAX_LIST + 1;

// What goes wrong; a file that cannot be read is told by its word in the usage.
#[derive(Clone, Copy)]
enum Failure {
    Usage,
    Reading(&'static str),
    Writing,
}

impl Failure {
    fn say(self, stderr: &impl Print) -> io::Result<()> {
        match self {
            Failure::Usage => stderr.println("usage: feeders PLAN PAIRS"),
            Failure::Reading(file) => stderr.println(format_args!("feeders: cannot read {file}")),
            Failure::Writing => stderr.println("feeders: cannot write"),
        }
    }
}

fn answer_arguments(rt: &HostRuntime) -> Result<(), Failure> {
    if !is_given(rt, 2) || is_given(rt, 3) {
        return Err(Failure::Usage);
    }
    let mut file = [0; INPUT_SIZE];
    let mut pairs = [0; LIST_SIZE];
    let size = read_named(rt, 1, &mut file).ok_or(Failure::Reading("PLAN"))?;
    let length = read_named(rt, 2, &mut pairs).ok_or(Failure::Reading("PAIRS"))?;
    let text = list_predecessors(&file[..size], &pairs[..length]);
    rt.stdout().write_all(&text).or(Err(Failure::Writing))
}

fn main(rt: HostRuntime) {
    if let Err(failure) = answer_arguments(&rt) {
        let _ = failure.say(&rt.stderr());
    }
}
