ghost use Rattle.std.specs.Prelude.{◌≡◌, ◌*◌, ◌≤◌, IfOk};
ghost use Rattle.plan.specs.Layout.{row_numbers, row_size, outside, overlap};
ghost use Rattle.plan.specs.Tasks.{max_tasks, row_fields};
ghost use Rattle.plan.specs.Files.{header_fault, layout_fault};
ghost use Rattle.plan.specs.Errors.{read_fault};
ghost use Rattle.plan.specs.Inner.{areas_of, IsPart, bytes_fault};

use super::errors::ReadError;
use super::located::Located;
use super::record::Plan;
use super::words::{word2_at, word4_at};
use std::ops::Range;

pub const HEADER_WIDTH: usize = 16;

pub const NAME_WIDTH: usize = 16;

// Where an area begins, and where it ends. Not a `Range`, which is no `Copy`.
#[derive(Clone, Copy, Debug, PartialEq, Eq)]
pub struct Area {
    pub start: usize,
    pub end: usize,
}

// Where a file's rows and names are, of which version and how wide a row is, and how many tasks there are. The version
// is the file's number, of which every clause speaks: an enum would be turned back into it there.
#[derive(Clone, Copy, Debug, PartialEq, Eq)]
pub struct Areas {
    pub version: u16,
    pub tasks: usize,
    pub row_width: usize,
    pub rows: Area,
    pub names: Area,
}

// Rules 1 to 4.
fn check_header(file: &[u8]) -> Result<(), ReadError>
    ensures { read_fault result ≡ header_fault file.now }
{
    let size = file.len();
    if !(Plan::MIN_FILE..=Plan::MAX_FILE).contains(&size) {
        return Err(ReadError::FileLength);
    }
    if !(1..=Plan::MAX_VERSION).contains(&word2_at(file, 0)) {
        return Err(ReadError::Version);
    }
    let count = word2_at(file, 2) as usize;
    if !(1..=Plan::MAX_TASKS).contains(&count) {
        return Err(ReadError::TaskCount);
    }
    if word4_at(file, 12) as usize != size {
        return Err(ReadError::TotalLength);
    }
    Ok(())
}

// How many numbers a version's rows have, and how many bytes.
pub fn row_numbers(version: u16) -> usize
    ensures { (result ≡ row_numbers version) × (result ≤ row_fields) }
{
    if version == 1 { 5 } else { 7 }
}

pub fn row_size(version: u16) -> usize
    ensures { (result ≡ row_size version) × (result ≤ 28) }
{
    4 * row_numbers(version)
}

// How many bytes so many rows of a version have.
pub fn rows_size(version: u16, tasks: usize) -> usize
    requires { tasks ≤ max_tasks }
    ensures { (result ≡ row_size version * tasks) × (result ≤ 28 * max_tasks) }
{
    row_size(version) * tasks
}

fn is_outside(area: &Area, total: usize) -> bool
    ensures { result ≡ outside total area.now.start area.now.end }
{
    area.start < HEADER_WIDTH || total < area.end
}

fn overlap(a: &Area, b: &Area) -> bool
    ensures { result ≡ overlap a.now.start a.now.end b.now.start b.now.end }
{
    a.start < b.end && b.start < a.end
}

// Rules 1 to 6.
pub fn layout_of(file: &[u8]) -> Result<Located<'_>, ReadError>
    ensures refuses { read_fault result ≡ layout_fault file.now }
    ensures file { IfOk result (λ located. located.file ≡ file.entry) }
    ensures areas { IfOk result (λ located. located.areas ≡ areas_of file.now) }
{
    check_header(file)?;
    let total = file.len();
    let version = word2_at(file, 0);
    let tasks = word2_at(file, 2) as usize;
    let rows_at = word4_at(file, 4) as usize;
    let rows = Area {
        start: rows_at,
        end: rows_at + rows_size(version, tasks),
    };
    let names_at = word4_at(file, 8) as usize;
    let names = Area {
        start: names_at,
        end: names_at + NAME_WIDTH * tasks,
    };
    if is_outside(&rows, total) {
        return Err(ReadError::RowsOutside);
    }
    if is_outside(&names, total) {
        return Err(ReadError::NamesOutside);
    }
    if overlap(&rows, &names) {
        return Err(ReadError::AreasOverlap);
    }
    let areas = Areas {
        version,
        tasks,
        row_width: row_size(version),
        rows,
        names,
    };
    Ok(Located { file, areas })
}

impl Located<'_> {
    ghost use Rattle.plan.specs.Files.{gap_fault};

    // Rule 7 in a gap. As in every search for the first that breaks a rule, what is found is put into the rule's own
    // error by a match: a function over the error's constructor would be called in as many lines.
    fn check_gap(&self, gap: Range<usize>) -> Result<(), ReadError>
        requires { IsPart gap self.now.file.now }
        ensures { read_fault result ≡ bytes_fault self.now.file.now gap.start gap.end }
    {
        let bytes = &self.file[gap.start..gap.end];
        match bytes.iter().position(|&b| b != 0) {
            Some(i) => Err(ReadError::StrayByte((gap.start + i) as u32)),
            None => Ok(()),
        }
    }

    // Rule 7: the first byte in a gap that is not zero. The gaps lie before the two areas, between them and
    // behind them.
    pub fn check_gaps(&self) -> Result<(), ReadError>
        ensures { read_fault result ≡ gap_fault self.now.file.now }
    {
        let (rows, names) = (&self.areas.rows, &self.areas.names);
        self.check_gap(HEADER_WIDTH..rows.start.min(names.start))?;
        self.check_gap(rows.end.min(names.end)..rows.start.max(names.start))?;
        self.check_gap(rows.end.max(names.end)..self.file.len())
    }
}
