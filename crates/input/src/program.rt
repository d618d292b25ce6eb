ghost use Rattle.std.specs.Prelude.{◌≡◌, ◌≤◌, IfOk, length};
ghost use Rattle.listing.specs.Promises.{input_size};

use super::reading::{ReadFailure, read_input};
use listing::INPUT_SIZE;
use plan::Fault;
use std::convert::AsSlice;
use std::env::FillError;
use std::io;
use std::io::Read;

// What goes wrong.
#[derive(Clone, Copy)]
enum Failure {
    Usage,
    Reading,
    Refused(Fault),
    Writing,
}

impl Failure {
    // No `Display`: it wants the program's name, and a refusal is bytes.
    fn say(self, name: &str, stderr: &impl Print) -> io::Result<()> {
        match self {
            Failure::Usage => stderr.println(format_args!("usage: {name} < PLAN")),
            Failure::Reading => stderr.println(format_args!("{name}: cannot read")),
            Failure::Refused(fault) => stderr.write_all(&listing::list_refusal(fault)),
            Failure::Writing => stderr.println(format_args!("{name}: cannot write")),
        }
    }
}

// Reads the input into a buffer that holds a byte more than a plan file may have, so that a longer one is seen to be
// longer.
fn read_file(stdin: impl Read + Drop, buffer: &mut [u8]) -> Result<usize, ReadFailure>
    requires { length buffer.old ≡ input_size }
    ensures { IfOk result (λ size. size ≤ length buffer.new) }
{
    read_input(stdin, buffer)
}

fn answer_input<T: AsSlice<u8> + Drop, F: FnOnce(&[u8]) -> Result<T, Fault>>(
    argument: Result<usize, FillError>,
    stdin: impl Read + Drop,
    stdout: &impl Print,
    answer: F,
) -> Result<(), Failure>
    requires { F.IsAlwaysCallable answer }
{
    let Err(FillError::NotPresent) = argument else {
        return Err(Failure::Usage);
    };
    let mut file = [0; INPUT_SIZE];
    let size = read_file(stdin, &mut file).map_err(|_| Failure::Reading)?;
    let text = answer(&file[..size]).map_err(Failure::Refused)?;
    stdout
        .write_all(text.as_slice())
        .map_err(|_| Failure::Writing)
}

// A program that takes no argument: a plan file from standard input, its answer to standard output. A refusal, or what
// else goes wrong, is said on standard error, as the exit status tells nothing. The runtime's parts come one by one,
// since by a bound `Env` the check would rest on the C functions of variables and folders, too.
pub fn run<T: AsSlice<u8> + Drop, F: FnOnce(&[u8]) -> Result<T, Fault>>(
    name: &str,
    argument: Result<usize, FillError>,
    stdin: impl Read + Drop,
    stdout: &impl Print,
    stderr: &impl Print,
    answer: F,
)
    requires { F.IsAlwaysCallable answer }
{
    if let Err(failure) = answer_input(argument, stdin, stdout, answer) {
        let _ = failure.say(name, stderr);
    }
}
