ghost use Rattle.std.specs.Prelude.{◌≤◌, IfErr, IfOk, length};

use std::io;
use std::io::Read;

// A read that failed, and how many bytes had come before it.
#[derive(Debug, Drop)]
pub struct ReadFailure {
    pub size: usize,
    pub error: io::Error,
}

// Reads the input until the buffer is full, the input ends or a read fails; how many bytes came.
pub fn read_input(mut input: impl Read + Drop, buffer: &mut [u8]) -> Result<usize, ReadFailure>
    ensures read { IfOk result (λ size. size ≤ length buffer.new) }
    ensures failed { IfErr result (λ failure. failure.size ≤ length buffer.new) }
{
    let mut size = 0;
    // No `for`: a turn moves on by as many bytes as came.
    while size < buffer.len() {
        match input.read(&mut buffer[size..]) {
            Ok(0) => break,
            Ok(more) => size += more,
            Err(error) => return Err(ReadFailure { size, error }),
        }
    }
    Ok(size)
}
