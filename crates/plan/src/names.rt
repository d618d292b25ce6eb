ghost use Rattle.std.specs.Prelude.{◌≡◌, ◌≤◌, ◌<◌, length};
ghost use Rattle.std.specs.List.{list_any};
ghost use Rattle.plan.specs.Names.{is_name_byte, name_ok};
ghost use Rattle.plan.specs.Inner.{IsAt, name_length, name_words, same_words};

use super::errors::ReadError;
use super::layout::NAME_WIDTH;
use super::located::Located;
use super::record::Plan;
use super::words::word8_at;

// A name field as two numbers of eight bytes, by which names are compared.
#[derive(Clone, Copy, Debug, Default, PartialEq, Eq)]
pub struct NameWords {
    pub first: u64,
    pub second: u64,
}

// Letters first, in a test of their own: made one test of all three, the compiler tries letters last, and most bytes
// of names are letters.
fn is_name_byte(b: u8) -> bool
    ensures { result ≡ is_name_byte b }
{
    if b.is_ascii_alphabetic() {
        return true;
    }
    b.is_ascii_digit() || b == b'-'
}

// How many name bytes a field begins with.
pub fn name_length(field: &[u8]) -> usize
    ensures is { result ≡ name_length field.now }
    ensures within { result ≤ length field.now }
{
    field
        .iter()
        .position(|&b| !is_name_byte(b))
        .unwrap_or(field.len())
}

// Rule 10 of a field.
pub fn name_ok(field: &[u8]) -> bool
    ensures { result ≡ name_ok field.now }
{
    let (name, rest) = field.split_at(name_length(field));
    !name.is_empty() && rest.iter().all(|&b| b == 0)
}

// Whether a name is among others.
fn is_among(name: NameWords, others: &[NameWords]) -> bool
    ensures { result ≡ list_any (same_words name) others.now }
{
    others.iter().any(|other| name == *other)
}

impl<'a> Located<'a> {
    ghost use Rattle.plan.specs.Names.{name_start, name_field};
    ghost use Rattle.plan.specs.Files.{same_name_fault};
    ghost use Rattle.plan.specs.Errors.{read_fault};

    // The name field of task i, counted from 0.
    pub fn name_field(&self, i: usize) -> &'a [u8]
        requires { i < self.now.areas.tasks }
        ensures bytes { result.now ≡ name_field self.now.file.now i }
        ensures place { IsAt self.now.file.ref_ptr (name_start self.now.file.now i) result.ref_ptr }
    {
        let at = self.areas.names.start + NAME_WIDTH * i;
        &self.file[at..at + NAME_WIDTH]
    }

    // The words of the name of task i.
    pub fn name_words(&self, i: usize) -> NameWords
        requires { i < self.now.areas.tasks }
        ensures { result ≡ name_words (name_field self.now.file.now i) }
    {
        let field = self.name_field(i);
        NameWords {
            first: word8_at(field, 0),
            second: word8_at(field, 8),
        }
    }

    // Rule 11: the first task whose name an earlier one has. The words of a name are read once, and kept for the names
    // after it.
    pub fn check_same_names(&self) -> Result<(), ReadError>
        ensures { read_fault result ≡ same_name_fault self.now.file.now }
    {
        let mut names = [NameWords::default(); Plan::MAX_TASKS];
        for i in 0..self.areas.tasks {
            let name = self.name_words(i);
            if is_among(name, &names[..i]) {
                return Err(ReadError::SameName((i + 1) as u32));
            }
            names[i] = name;
        }
        Ok(())
    }
}
