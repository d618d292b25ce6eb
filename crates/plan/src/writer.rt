ghost use Rattle.std.specs.Prelude.{◌≡◌, ◌+◌, ◌≤◌, ◌<◌, length};
ghost use Rattle.std.proofs.lemmas.List.Edits.{sets};
ghost use Rattle.plan.specs.Layout.{header_width, name_width};
ghost use Rattle.plan.specs.Canonical.{is_plain, version_for, header_bytes, name_bytes, rows_bytes};
ghost use Rattle.plan.specs.Promises.{Writes, write_answer};
ghost use Rattle.plan.specs.Inner.{HasRows};

use super::errors::WriteError;
use super::layout::{HEADER_WIDTH, NAME_WIDTH, row_numbers, row_size, rows_size};
use super::plan_file::PlanFile;
use super::reader::load_plan;
use super::tasks::Task;
use super::words::{put_bytes, put_words};

// Whether a task has no field that version 1 lacks.
fn is_plain(task: &Task) -> bool
    ensures { result ≡ is_plain task.now }
{
    task.blocking == 0 && task.jitter == 0
}

// The version that tasks need: 1 where every one is plain, else 2.
fn version_for(tasks: &[Task]) -> u16
    ensures { result ≡ version_for tasks.now }
{
    if tasks.iter().all(is_plain) { 1 } else { 2 }
}

// The version, so many tasks, their rows behind the header, their names, and the total length.
fn put_header(out: &mut [u8], version: u16, tasks: u16, names: u32, total: u32)
    requires { header_width ≤ length out.old }
    ensures { out.new ≡ sets out.old 0 (header_bytes version tasks names total) }
{
    put_bytes(out, 0, &version.to_le_bytes());
    put_bytes(out, 2, &tasks.to_le_bytes());
    put_words(out, 4, &[HEADER_WIDTH as u32, names, total]);
}

// The rows of tasks, in a version.
fn put_rows(out: &mut [u8], version: u16, tasks: &[Task])
    requires { HasRows version tasks.now out.old }
    ensures { out.new ≡ sets out.old header_width (rows_bytes version tasks.now) }
{
    let numbers = row_numbers(version);
    let width = row_size(version);
    for (i, task) in tasks.iter().enumerate() {
        put_words(out, HEADER_WIDTH + width * i, &task.row()[..numbers]);
    }
}

// A name, then zeros to the end of its field.
fn put_name(out: &mut [u8], at: usize, name: &[u8])
    requires { (at + name_width ≤ length out.old) × (length name.now ≤ name_width) }
    ensures { out.new ≡ sets out.old at (name_bytes name.now) }
{
    put_bytes(out, at, name);
    out[at + name.len()..at + NAME_WIDTH].fill(0);
}

impl PlanFile<'_> {
    ghost use Rattle.std.specs.Prelude.{◌*◌};
    ghost use Rattle.plan.specs.Files.{names_of};
    ghost use Rattle.plan.specs.Canonical.{names_bytes};
    ghost use Rattle.plan.specs.Promises.{plan_tasks};

    // The names of the tasks.
    fn put_names(&self, out: &mut [u8], at: usize)
        requires { at + name_width * length (plan_tasks self.now.plan) ≤ length out.old }
        ensures { out.new ≡ sets out.old at (names_bytes (names_of self.now.located.file.now)) }
    {
        for i in 0..self.plan.tasks.len() {
            put_name(out, at + NAME_WIDTH * i, self.name(i));
        }
    }

    // The canonical form of the plan, into a space of just its length.
    fn put_form(&self, out: &mut [u8]) -> Result<usize, WriteError>
        ensures { Writes self.now.located.file.now out.old out.new (write_answer result) }
    {
        let tasks = self.plan.tasks.as_slice();
        let n = tasks.len();
        let version = version_for(tasks);
        let names_at = HEADER_WIDTH + rows_size(version, n);
        let size = names_at + NAME_WIDTH * n;
        if out.len() != size {
            return Err(WriteError::SpaceLength { size });
        }
        put_header(out, version, n as u16, names_at as u32, size as u32);
        put_rows(out, version, tasks);
        self.put_names(out, names_at);
        Ok(size)
    }
}

// WRITE: the canonical form of a file's plan; answers its length.
pub fn write_plan(file: &[u8], out: &mut [u8]) -> Result<usize, WriteError>
    ensures { Writes file.now out.old out.new (write_answer result) }
{
    load_plan(file)?.put_form(out)
}
