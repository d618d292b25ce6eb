ghost use Rattle.std.specs.Prelude.{◌≡◌, ◌≤◌, IfOk, IfSome, length, map, unwrap_or};
ghost use Rattle.plan.specs.Faults.{or_else};
ghost use Rattle.precedence.specs.Pairs.{pairs_of, list_fault, is_outside, pairs_fault, first_misordered};
ghost use Rattle.precedence.specs.Inner.{max_pairs, pair_of, AllOfTasks};
ghost use Rattle.precedence.specs.Errors.{precedence_error};

use super::errors::PrecedenceError;
use arrayvec::ArrayVec;

// The longest list, in bytes.
pub const MAX_LIST: usize = 240;

const MAX_PAIRS: usize = MAX_LIST / 2;

// Two tasks, counted from 1, of which the first is a predecessor of the second.
#[derive(Clone, Copy, Default)]
pub(crate) struct Pair {
    pub predecessor: u8,
    pub successor: u8,
}

impl Pair {
    // Whether one of its numbers is none of so many tasks.
    fn is_outside(&self, tasks: usize) -> bool
        ensures { result ≡ is_outside tasks self.now }
    {
        let numbers = 1..=tasks;
        !(numbers.contains(&usize::from(self.predecessor))
            && numbers.contains(&usize::from(self.successor)))
    }
}

// Rule 61: a list, two bytes a pair.
fn split_list(list: &[u8]) -> Result<&[[u8; 2]], PrecedenceError>
    ensures refuses { precedence_error result ≡ list_fault list.now }
    ensures splits { IfOk result (λ chunks. map pair_of chunks.now ≡ pairs_of list.now) }
    ensures few { IfOk result (λ chunks. length chunks.now ≤ max_pairs) }
{
    let (chunks, odd) = list.as_chunks::<2>();
    if !odd.is_empty() || chunks.len() > MAX_PAIRS {
        return Err(PrecedenceError::ListLength);
    }
    Ok(chunks)
}

// Rules 61 and 62: the pairs of a list, for so many tasks.
pub(crate) fn read_pairs(
    list: &[u8],
    tasks: usize,
) -> Result<ArrayVec<Pair, MAX_PAIRS>, PrecedenceError>
    ensures refuses { let s = list.now in
        precedence_error result ≡ or_else (list_fault s) (pairs_fault tasks (pairs_of s)) }
    ensures reads { IfOk result (λ ps. ps.items ≡ pairs_of list.now) }
    ensures tasks { IfOk result (λ ps. AllOfTasks tasks ps.items) }
    ensures few { IfOk result (λ ps. length ps.items ≤ max_pairs) }
{
    let mut pairs = ArrayVec::new();
    for &[predecessor, successor] in split_list(list)? {
        let pair = Pair {
            predecessor,
            successor,
        };
        if pair.is_outside(tasks) {
            return Err(PrecedenceError::NoSuchTask(pairs.len() as u32 + 1));
        }
        pairs.push(pair);
    }
    Ok(pairs)
}

// The first pair, counted from 1, whose predecessor does not stand above its successor.
pub(crate) fn first_misordered(pairs: &[Pair]) -> Option<u32>
    requires { length pairs.now ≤ max_pairs }
    ensures is { unwrap_or result 0 ≡ first_misordered pairs.now }
    ensures first { IfSome result (λ pair. 1 ≤ pair) }
{
    pairs
        .iter()
        .position(|pair| pair.successor <= pair.predecessor)
        .map(|i| (i + 1) as u32)
}
