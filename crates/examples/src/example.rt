ghost use Rattle.std.specs.Prelude.{◌≡◌, length};

use super::file::TestFile;
use super::words::{number, number_u8, number_u32, piece};
use arrayvec::ArrayVec;
use std::array;

// What an example calls on its file.
#[derive(Drop)]
pub(crate) enum Call {
    Read,
    Write {
        space: usize,
    },
    Times {
        space: usize,
        periods: ArrayVec<u32, 17>,
    },
    Cheapest {
        budget: u64,
        space: usize,
        room: usize,
    },
    Feeders {
        space: usize,
        pairs: ArrayVec<u8, 512>,
    },
    List {
        budget: u64,
        room: usize,
    },
    Print,
}

// Word k of a call; word 0 stands before the first space.
fn word(call: &[u8], k: usize) -> &[u8] {
    piece(call, b' ', k)
}

// The number at a word of a call.
fn given(call: &[u8], k: usize) -> u64 {
    number(word(call, k))
}

// The numbers from word 7 of a call on.
fn listed(call: &[u8]) -> [u32; 17]
    ensures { length result ≡ 17 }
{
    array::from_fn(|k| number_u32(word(call, 7 + k)))
}

// The periods of a call: as many of its numbers as word 5 says.
fn periods(call: &[u8]) -> ArrayVec<u32, 17> {
    let mut periods = ArrayVec::from(listed(call));
    periods.truncate(given(call, 5) as usize);
    periods
}

// The bytes of a list of pairs from word 5 of a call on, as far as they have room.
fn pairs(call: &[u8]) -> ArrayVec<u8, 512> {
    let mut pairs = ArrayVec::new();
    for word in call.split(|byte| *byte == b' ').skip(5) {
        if !word.is_empty() {
            let _ = pairs.try_push(number_u8(word));
        }
    }
    pairs
}

impl Call {
    // A space, the name of a call, of which the first letter counts, and numbers, each behind its label.
    fn parse(call: &[u8]) -> Option<Call> {
        Some(match call.get(1)? {
            b'r' => Call::Read,
            b'w' => Call::Write {
                space: number_u32(word(call, 3)) as usize,
            },
            b't' => Call::Times {
                space: given(call, 3) as usize,
                periods: periods(call),
            },
            b'c' => Call::Cheapest {
                budget: given(call, 3),
                space: given(call, 5) as usize,
                room: given(call, 7) as usize,
            },
            b'f' => Call::Feeders {
                space: given(call, 3) as usize,
                pairs: pairs(call),
            },
            b'l' => Call::List {
                budget: given(call, 3),
                room: given(call, 5) as usize,
            },
            b'p' => Call::Print,
            _ => return None,
        })
    }
}

// A label, a colon, a call, a bar, and the words of its file.
#[derive(Drop)]
pub(crate) struct Example<'a> {
    pub label: &'a [u8],
    pub call: Option<Call>,
    pub file: TestFile,
}

impl<'a> Example<'a> {
    pub(crate) fn parse(line: &'a [u8]) -> Example<'a> {
        let rest = piece(line, b':', 1);
        Example {
            label: piece(line, b':', 0),
            call: Call::parse(piece(rest, b'|', 0)),
            file: TestFile::from_words(piece(rest, b'|', 1)),
        }
    }
}
