ghost use Rattle.std.specs.Prelude.{◌≡◌, ◌<◌, IfOk};
ghost use Rattle.plan.specs.Tasks.{further_field, max_tasks};
ghost use Rattle.plan.specs.Files.{row_fault};
ghost use Rattle.plan.specs.Errors.{read_fault};

use super::errors::ReadError;
use super::located::Located;
use super::tasks::Task;
use super::words::word4_at;

// Rules 8 and 9 of task i.
fn checked(task: Task, i: usize) -> Result<Task, ReadError>
    requires { i < max_tasks }
    ensures refuses { read_fault result ≡ row_fault task i }
    ensures same { IfOk result (λ t. t ≡ task) }
{
    let place = (i + 1) as u32;
    if !task.within_limits() {
        return Err(ReadError::OutsideLimits(place));
    }
    if task.period_max < task.period_min {
        return Err(ReadError::PeriodsReversed(place));
    }
    Ok(task)
}

impl Located<'_> {
    ghost use Rattle.std.specs.Prelude.{◌+◌, ◌≤◌, length};
    ghost use Rattle.plan.specs.Layout.{version};
    ghost use Rattle.plan.specs.Files.{task_of};

    // A field that rows of version 1 do not have: 0 there.
    fn further_field(&self, at: usize) -> u32
        requires { (version self.now.file.now ≡ 1 → ⊥) → at + 4 ≤ length self.now.file.now }
        ensures { result ≡ further_field self.now.file.now at }
    {
        if self.areas.version == 1 {
            0
        } else {
            word4_at(self.file, at)
        }
    }

    // The row of task i, counted from 0, by rules 8 and 9.
    pub fn row(&self, i: usize) -> Result<Task, ReadError>
        requires { i < self.now.areas.tasks }
        ensures refuses { read_fault result ≡ row_fault (task_of self.now.file.now i) i }
        ensures decodes { IfOk result (λ t. t ≡ task_of self.now.file.now i) }
    {
        let at = self.areas.rows.start + self.areas.row_width * i;
        let task = Task {
            wcet: word4_at(self.file, at),
            period_min: word4_at(self.file, at + 4),
            period_max: word4_at(self.file, at + 8),
            deadline_cap: word4_at(self.file, at + 12),
            weight: word4_at(self.file, at + 16),
            blocking: self.further_field(at + 20),
            jitter: self.further_field(at + 24),
        };
        checked(task, i)
    }
}
