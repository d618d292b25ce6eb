ghost use Rattle.std.specs.Prelude.{◌<◌};

use super::draw::Sequence;
use super::file::TestFile;
use arrayvec::ArrayVec;
use plan::Fault;
use std::fmt;

// The words of files of one to five tasks.
static FILES: [&[u8]; 5] = [
    b" %1 1 1 1 1 0 'a",
    b" %2 1 1 1 1 0 *1 'a 'b",
    b" %3 1 1 1 1 0 *2 'a 'b 'c",
    b" %4 1 1 1 1 0 *3 'a 'b 'c 'd",
    b" %5 1 1 1 1 0 *4 'a 'b 'c 'd 'e",
];

// Two task numbers, of which the first precedes the second.
type Pair = [u8; 2];

// A drawn call: a file of so many tasks, a list of up to six pairs, and the space's length.
#[derive(Drop)]
struct Call {
    tasks: u8,
    list: ArrayVec<u8, 13>,
    space: usize,
}

// True for one of ten numbers.
fn now_and_then(sequence: &Sequence, k: usize) -> bool
    requires { k < 36 }
{
    sequence.draw(k, 0..=9) == 0
}

fn refused(number: u32, place: u32) -> Result<u32, Fault> {
    Err(Fault { number, place })
}

impl Call {
    // Now and then with a byte too many, with a number below or above those of tasks, or with a space too long.
    fn draw(sequence: &Sequence) -> Call {
        let tasks = sequence.draw(0, 1..=5);
        let lowest = u32::from(!now_and_then(sequence, 1));
        let highest = tasks.saturating_add(u32::from(now_and_then(sequence, 2)));
        let pairs = sequence.draw(3, 0..=6).min(6);
        let bytes = 2 * pairs + u32::from(now_and_then(sequence, 4));
        let mut list = ArrayVec::new();
        for k in 0..bytes as usize {
            let number = sequence.draw(5 + k, lowest..=highest);
            let _ = list.try_push(u8::try_from(number).unwrap_or(0));
        }
        let space = tasks.saturating_add(u32::from(now_and_then(sequence, 18)));
        Call {
            tasks: u8::try_from(tasks).unwrap_or(0),
            list,
            space: space as usize,
        }
    }

    fn pairs(&self) -> &[Pair] {
        self.list.as_chunks::<2>().0
    }

    fn has_task(&self, number: u8) -> bool {
        (1..=self.tasks).contains(&number)
    }

    // The refusal by the rules in their order, or else the first pair that is not in the order of the file. No list is
    // so long that 61 would refuse it for that.
    fn answer(&self) -> Result<u32, Fault> {
        let (mut outside, mut misordered) = (0, 0);
        let mut number = 0u32;
        for [predecessor, successor] in self.pairs() {
            number = number.saturating_add(1);
            let inside = self.has_task(*predecessor) && self.has_task(*successor);
            if outside == 0 && !inside {
                outside = number;
            }
            if misordered == 0 && predecessor >= successor {
                misordered = number;
            }
        }
        if self.list.len() % 2 != 0 {
            return refused(61, 0);
        }
        if outside != 0 {
            return refused(62, outside);
        }
        if self.space != usize::from(self.tasks) {
            return refused(40, 0);
        }
        Ok(misordered)
    }
}

// The ends of a chain: the pairs that the digits of a number stand for, if each begins where the one before ends.
fn chain(pairs: &[Pair], length: u32, digits: usize) -> Option<Pair> {
    let mut digits = digits;
    let [first, mut last] = *pairs.get(digits.checked_rem(pairs.len())?)?;
    for _ in 1..length {
        digits = digits.checked_div(pairs.len())?;
        let [predecessor, successor] = *pairs.get(digits.checked_rem(pairs.len())?)?;
        if predecessor != last {
            return None;
        }
        last = successor;
    }
    Some([first, last])
}

// The ends of all chains of up to five pairs, each once. A longer chain among five tasks comes to one of them twice,
// and a shorter one has the same ends.
fn chains(pairs: &[Pair]) -> ArrayVec<Pair, 25> {
    let mut all = ArrayVec::new();
    let mut count = 1usize;
    for length in 1..=5 {
        count = count.wrapping_mul(pairs.len());
        for digits in 0..count {
            if let Some(ends) = chain(pairs, length, digits) {
                if !all.contains(&ends) {
                    let _ = all.try_push(ends);
                }
            }
        }
    }
    all
}

// At how many tasks a chain to each task begins.
fn count_ends(ends: &[Pair]) -> [u8; 6] {
    let mut counts = [0u8; 6];
    for [_, last] in ends {
        if let Some(count) = counts.get_mut(usize::from(*last).wrapping_sub(1)) {
            *count = count.saturating_add(1);
        }
    }
    counts
}

// What FEEDERS was compared at: lists of pairs, refusals, tasks that precede themselves, and answers that differ.
#[derive(Clone, Copy, Default)]
pub(crate) struct Counts {
    lists: u64,
    refused: u64,
    own: u64,
    differences: u64,
}

impl Counts {
    pub(crate) fn compare(&mut self, sequence: &Sequence) {
        let call = Call::draw(sequence);
        let Some(words) = FILES.get(usize::from(call.tasks).wrapping_sub(1)) else {
            return;
        };
        let file = TestFile::from_words(words);
        let mut space = [7; 6];
        let counts = &mut space[..call.space.min(6)];
        let answer = match precedence::predecessors(file.bytes(), &call.list, counts) {
            Ok(pair) => Ok(pair.unwrap_or(0)),
            Err(error) => Err(Fault::from(error)),
        };
        let mut by_chains = [7; 6];
        if answer.is_ok() {
            let ends = chains(call.pairs());
            by_chains = count_ends(&ends);
            self.count_own(&ends);
        }
        let is_same = answer == call.answer() && &*counts == &by_chains[..counts.len()];
        self.lists = self.lists.saturating_add(1);
        self.refused = self.refused.saturating_add(u64::from(answer.is_err()));
        self.differences = self.differences.saturating_add(u64::from(!is_same));
    }

    fn count_own(&mut self, ends: &[Pair]) {
        for [first, last] in ends {
            self.own = self.own.saturating_add(u64::from(first == last));
        }
    }
}

impl fmt::Display for Counts {
    fn fmt<W: fmt::Write>(&self, f: &mut fmt::Formatter<W>) -> fmt::Result {
        let Counts {
            lists,
            refused,
            own,
            differences,
        } = *self;
        write!(
            f,
            "lists {lists} refused {refused} tasks that precede themselves {own} differences {differences}"
        )
    }
}
