ghost use Rattle.std.specs.Prelude.{◌≤◌, IfSome, length};

use super::small::SmallPlan;
use super::words::{number, number_u8, number_u32};
use listing::INPUT_SIZE;
use plan::Task;

const PLAN_P: &[u8] = b"%2 1 1 6 1000 1 2 1 8 1000 1 'gauge 'radio";

const PLAN_Q: &[u8] = b"&2 1 1 6 1000 1 0 0 2 1 8 1000 1 0 0 'gauge 'radio";

#[derive(Clone, Copy)]
pub(crate) enum Version {
    One = 1,
    Two = 2,
}

impl Version {
    // How many numbers a row has; said here anew, as all that the product is held to.
    fn fields(self) -> usize
        ensures { result ≤ 7 }
    {
        match self {
            Version::One => 5,
            Version::Two => Task::FIELDS,
        }
    }

    fn row_size(self) -> usize
        ensures { result ≤ 28 }
    {
        4 * self.fields()
    }
}

// A word of a file, as stdin describes it.
#[derive(Clone, Copy)]
enum Word<'a> {
    Header { version: Version, tasks: u8 },
    Seek(usize),
    Number(u32),
    Byte(u8),
    Name(&'a [u8]),
    Rows { version: Version, times: u8 },
    End,
}

impl<'a> Word<'a> {
    // The word that its first byte names; none of a byte that no word begins with.
    fn parse(word: &'a [u8]) -> Option<Word<'a>> {
        let (sign, rest) = word.split_first()?;
        let tasks = (number_u32(word) % 17) as u8;
        let times = (number(word) % 128) as u8;
        Some(match sign {
            b'%' => Word::Header {
                version: Version::One,
                tasks,
            },
            b'&' => Word::Header {
                version: Version::Two,
                tasks,
            },
            b'*' => Word::Rows {
                version: Version::One,
                times,
            },
            b'+' => Word::Rows {
                version: Version::Two,
                times,
            },
            b'@' => Word::Seek(number(word) as usize),
            b'.' => Word::Byte(number_u8(word)),
            b'\'' => Word::Name(rest),
            b';' => Word::End,
            b'0'..=b'9' => Word::Number(number_u32(word)),
            _ => return None,
        })
    }
}

// A plan file that is written piece by piece, over zeros: words write over what is there, and past the file's end,
// which is set apart. What they write past its space is lost.
#[derive(Drop)]
pub(crate) struct TestFile {
    space: [u8; INPUT_SIZE],
    // where the next piece goes
    at: usize,
    end: usize,
}

impl TestFile {
    fn new() -> TestFile {
        TestFile {
            space: [0; INPUT_SIZE],
            at: 0,
            end: 0,
        }
    }

    // The file that words describe, behind a space: they change plan P, or plan Q behind $, or describe all of it from
    // a header on.
    pub(crate) fn from_words(words: &[u8]) -> TestFile {
        let base = match words.get(1) {
            Some(b'%' | b'&') => &[],
            Some(b'$') => PLAN_Q,
            _ => PLAN_P,
        };
        let mut file = TestFile::new();
        file.write(base);
        file.write(words);
        file
    }

    // The file of a plan in a version, with the names A, B and C behind its tasks.
    pub(crate) fn from_plan(version: Version, plan: &SmallPlan) -> TestFile {
        let tasks = plan.tasks();
        let mut file = TestFile::new();
        file.put_header(version, tasks.len() as u8);
        for task in tasks {
            file.put_task(version, *task);
        }
        for letter in &b"ABC"[..tasks.len()] {
            file.put_name(&[*letter]);
        }
        file
    }

    // The file, unless it ends past its space.
    pub(crate) fn whole(&self) -> Option<&[u8]>
        ensures { IfSome result (λ bytes. length bytes.now ≤ INPUT_SIZE) }
    {
        self.space.get(..self.end)
    }

    // The file, of which no byte is left where it ends past its space.
    pub(crate) fn bytes(&self) -> &[u8]
        ensures { length result.now ≤ INPUT_SIZE }
    {
        self.whole().unwrap_or(&[])
    }

    // Writes words from the start on.
    fn write(&mut self, words: &[u8]) {
        self.at = 0;
        for word in words.split(|byte| *byte == b' ') {
            if let Some(word) = Word::parse(word) {
                self.put_word(word);
            }
        }
    }

    fn put_word(&mut self, word: Word) {
        match word {
            Word::Header { version, tasks } => self.put_header(version, tasks),
            Word::Seek(at) => self.at = at,
            Word::Number(number) => self.put(&number.to_le_bytes()),
            Word::Byte(byte) => self.put_byte(byte),
            Word::Name(name) => self.put_name(name),
            Word::Rows { version, times } => self.repeat(version.row_size(), times),
            Word::End => self.end = self.at,
        }
    }

    fn put_byte(&mut self, byte: u8) {
        if let Some(place) = self.space.get_mut(self.at) {
            *place = byte;
        }
        self.at = self.at.wrapping_add(1);
    }

    fn put(&mut self, bytes: &[u8]) {
        for byte in bytes {
            self.put_byte(*byte);
        }
    }

    // The header of so many tasks; their rows follow it, and their names these.
    fn put_header(&mut self, version: Version, tasks: u8) {
        let count = usize::from(tasks);
        let names = 16 + version.row_size() * count;
        self.end = names + 16 * count;
        for number in [
            version as u32 + 65536 * u32::from(tasks),
            16,
            names as u32,
            self.end as u32,
        ] {
            self.put(&number.to_le_bytes());
        }
    }

    fn put_task(&mut self, version: Version, task: Task) {
        for number in &task.row()[..version.fields()] {
            self.put(&number.to_le_bytes());
        }
    }

    // A name in sixteen bytes.
    fn put_name(&mut self, name: &[u8]) {
        let mut field = [0; 16];
        for (place, byte) in field.iter_mut().zip(name) {
            *place = *byte;
        }
        self.put(&field);
    }

    // Writes the bytes before, so many, so many times more.
    fn repeat(&mut self, width: usize, times: u8) {
        for _ in 0..width.saturating_mul(usize::from(times)) {
            let from = self.at.wrapping_sub(width);
            let byte = self.space.get(from).copied().unwrap_or(0);
            self.put_byte(byte);
        }
    }
}
