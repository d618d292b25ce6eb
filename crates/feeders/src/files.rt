ghost use Rattle.std.specs.Prelude.{◌≤◌, IfSome, length};

use std::env::{Env, FillError};
use std::{fs, str};

// The longest name of a file that the system takes, with the byte that ends it.
const MAX_NAME: usize = 4096;

// Whether the program was given so many arguments or more.
pub(crate) fn is_given(rt: &HostRuntime, argument: usize) -> bool {
    !matches!(rt.arg(argument, &mut []), Err(FillError::NotPresent))
}

// Reads the file that an argument names until the buffer is full or the file ends; how many bytes came, or none where
// it cannot be read.
pub(crate) fn read_named(rt: &HostRuntime, argument: usize, buffer: &mut [u8]) -> Option<usize>
    ensures { IfSome result (λ size. size ≤ length buffer.new) }
{
    let mut name = [0; MAX_NAME];
    let size = rt.arg(argument, &mut name).ok()?;
    let path = str::from_utf8(&name[..size]).ok()?;
    let file = fs::open(rt, path).ok()?;
    input::read_input(file, buffer).ok()
}
