use plan::{Fault, ReadError};

// Why FEEDERS refuses a call: its file, the length of the list or of the space, or the first pair, counted from 1, with
// a number of no task.
#[derive(Clone, Copy, Debug, PartialEq, Eq)]
pub enum PrecedenceError {
    Read(ReadError),
    ListLength,
    NoSuchTask(u32),
    SpaceLength,
}

impl From<ReadError> for PrecedenceError {
    ghost use Rattle.std.specs.Prelude.{◌≡◌};
    ghost use Rattle.precedence.specs.declared.errors.PrecedenceError.TheVariants.{Read};

    ghost from_gives = { λ e p. p ≡ Read e };

    fn from(error: ReadError) -> PrecedenceError {
        PrecedenceError::Read(error)
    }
}

impl From<PrecedenceError> for Fault {
    ghost use Rattle.std.specs.Prelude.{◌≡◌};
    ghost use Rattle.precedence.specs.Errors.{precedence_error_fault};

    ghost from_gives = { λ e f. f ≡ precedence_error_fault e };

    fn from(error: PrecedenceError) -> Fault {
        let (number, place) = match error {
            PrecedenceError::Read(error) => return error.into(),
            PrecedenceError::ListLength => (61, 0),
            PrecedenceError::NoSuchTask(pair) => (62, pair),
            PrecedenceError::SpaceLength => (40, 0),
        };
        Fault { number, place }
    }
}
