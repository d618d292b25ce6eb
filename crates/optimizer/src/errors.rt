use plan::{Fault, ReadError};

// Why CHEAPEST refuses a call: its file, the length of one of the two spaces, the first task, counted from 1, that
// misses its deadline alone, or the first that misses it at the longest periods.
#[derive(Clone, Copy, Debug, PartialEq, Eq)]
pub enum CallError {
    Read(ReadError),
    PeriodsLength,
    WorkLength,
    InfeasibleAlone(u32),
    Infeasible(u32),
}

impl From<ReadError> for CallError {
    ghost use Rattle.std.specs.Prelude.{◌≡◌};
    ghost use Rattle.optimizer.specs.declared.errors.CallError.TheVariants.{Read};

    ghost from_gives = { λ e c. c ≡ Read e };

    fn from(error: ReadError) -> CallError {
        CallError::Read(error)
    }
}

impl From<CallError> for Fault {
    ghost use Rattle.std.specs.Prelude.{◌≡◌};
    ghost use Rattle.optimizer.specs.Answers.{call_error_fault};

    ghost from_gives = { λ e f. f ≡ call_error_fault e };

    fn from(error: CallError) -> Fault {
        let (number, place) = match error {
            CallError::Read(error) => return error.into(),
            CallError::PeriodsLength => (22, 0),
            CallError::WorkLength => (24, 0),
            CallError::InfeasibleAlone(task) => (31, task),
            CallError::Infeasible(task) => (32, task),
        };
        Fault { number, place }
    }
}
