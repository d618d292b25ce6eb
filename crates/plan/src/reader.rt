ghost use Rattle.std.specs.Prelude.{◌≡◌, IfOk};
ghost use Rattle.plan.specs.Errors.{read_fault};
ghost use Rattle.plan.specs.Files.{file_fault};
ghost use Rattle.plan.specs.Promises.{read_of, read_answer, Names, Loads};

use super::errors::ReadError;
use super::layout::layout_of;
use super::located::Located;
use super::names::{name_length, name_ok};
use super::plan_file::PlanFile;
use super::record::Plan;
use super::task_set::TaskSet;
use super::tasks::Task;

impl Located<'_> {
    ghost use Rattle.plan.specs.Files.{tasks_fault};
    ghost use Rattle.plan.specs.TaskSets.{tasks_in};
    ghost use Rattle.plan.specs.Inner.{Decodes};

    // Rules 8 to 10, task by task. A row that cannot be read is taken apart by let .. else, as the requirement has it.
    fn decode_tasks(&self) -> Result<TaskSet, ReadError>
        ensures refuses { read_fault result ≡ tasks_fault self.now.file.now }
        ensures decodes { IfOk result (λ tasks. Decodes self.now.file.now (tasks_in tasks)) }
    {
        // in place: `TaskSet::new` is handed its rows, which copies them
        let mut tasks = TaskSet {
            rows: [Task::default(); Plan::MAX_TASKS],
            count: 0,
        };
        for i in 0..self.areas.tasks {
            let row = self.row(i);
            let Ok(task) = row else {
                return Err(row.unwrap_err());
            };
            if !name_ok(self.name_field(i)) {
                return Err(ReadError::BadName((i + 1) as u32));
            }
            tasks.push(task);
        }
        Ok(tasks)
    }
}

// A file with its plan, or its refusal by rules 1 to 11.
pub fn load_plan(file: &[u8]) -> Result<PlanFile<'_>, ReadError>
    ensures refuses { read_fault result ≡ file_fault file.now }
    ensures file { IfOk result (λ f. f.located.file ≡ file.entry) }
    ensures loads { IfOk result (λ f. Loads file.now f.plan) }
{
    let located = layout_of(file)?;
    located.check_gaps()?;
    let tasks = located.decode_tasks()?;
    located.check_same_names()?;
    let plan = Plan::new(tasks);
    Ok(PlanFile { located, plan })
}

// READ: how many tasks a file has, or its refusal.
pub fn read_plan(file: &[u8]) -> Result<u32, ReadError>
    ensures { read_answer result ≡ read_of file.now }
{
    let loaded = load_plan(file)?;
    Ok(loaded.plan.tasks.len() as u32)
}

impl<'f> PlanFile<'f> {
    ghost use Rattle.std.specs.Prelude.{◌+◌, ◌<◌, length};
    ghost use Rattle.plan.specs.Promises.{plan_tasks};

    // The name of task i, counted from 0.
    pub fn name(&self, i: usize) -> &'f [u8]
        requires { i < length (plan_tasks self.now.plan) }
        ensures { let file = self.now.located.file in
            Names file.ref_ptr file.now (i + 1) result.ref_ptr result.now }
    {
        let field = self.located.name_field(i);
        &field[..name_length(field)]
    }
}

// NAME: a task's name, counted from 1, as the part of the file that holds it; the empty part at its start, which is the
// requirement's form of none, where there is none.
pub fn task_name(file: &[u8], task: u32) -> &[u8]
    ensures { Names file.entry.ref_ptr file.now task result.ref_ptr result.now }
{
    let Ok(loaded) = load_plan(file) else {
        return &file[..0];
    };
    if !(1..=loaded.plan.tasks.len()).contains(&(task as usize)) {
        return &file[..0];
    }
    loaded.name(task as usize - 1)
}
