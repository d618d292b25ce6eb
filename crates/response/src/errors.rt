use plan::{Fault, ReadError};

// Why TIMES refuses a call: its file, the length of the periods or of the space, or the first task, counted from 1,
// whose period is outside its bounds.
#[derive(Clone, Copy, Debug, PartialEq, Eq)]
pub enum TimesError {
    Read(ReadError),
    PeriodsLength,
    SpaceLength,
    OutOfBounds(u32),
}

impl From<ReadError> for TimesError {
    ghost use Rattle.std.specs.Prelude.{◌≡◌};
    ghost use Rattle.response.specs.declared.errors.TimesError.TheVariants.{Read};

    ghost from_gives = { λ e t. t ≡ Read e };

    fn from(error: ReadError) -> TimesError {
        TimesError::Read(error)
    }
}

impl From<TimesError> for Fault {
    ghost use Rattle.std.specs.Prelude.{◌≡◌};
    ghost use Rattle.response.specs.Errors.{times_error_fault};

    ghost from_gives = { λ e f. f ≡ times_error_fault e };

    fn from(error: TimesError) -> Fault {
        let (number, place) = match error {
            TimesError::Read(error) => return error.into(),
            TimesError::PeriodsLength => (21, 0),
            TimesError::SpaceLength => (22, 0),
            TimesError::OutOfBounds(task) => (23, task),
        };
        Fault { number, place }
    }
}
