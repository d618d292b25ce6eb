use super::faults::Fault;

// Why a plan file is refused; with the offset of a stray byte, and else with the task, counted from 1, that it is
// about.
#[derive(Clone, Copy, Debug, PartialEq, Eq)]
pub enum ReadError {
    FileLength,
    Version,
    TaskCount,
    TotalLength,
    RowsOutside,
    NamesOutside,
    AreasOverlap,
    StrayByte(u32),
    OutsideLimits(u32),
    PeriodsReversed(u32),
    BadName(u32),
    SameName(u32),
}

// Why a file's canonical form is not written; a space of another length than the form's is told that length.
#[derive(Clone, Copy, Debug, PartialEq, Eq)]
pub enum WriteError {
    Read(ReadError),
    SpaceLength { size: usize },
}

// By hand: a derive would not say `from_gives`, on which the clauses of functions with `?` stand. So in the layers
// above.
impl From<ReadError> for WriteError {
    ghost use Rattle.std.specs.Prelude.{◌≡◌};
    ghost use Rattle.plan.specs.declared.errors.WriteError.TheVariants.{Read};

    ghost from_gives = { λ e w. w ≡ Read e };

    fn from(error: ReadError) -> WriteError {
        WriteError::Read(error)
    }
}

impl From<ReadError> for Fault {
    ghost use Rattle.std.specs.Prelude.{◌≡◌};
    ghost use Rattle.plan.specs.Errors.{read_error_fault};

    ghost from_gives = { λ e f. f ≡ read_error_fault e };

    fn from(error: ReadError) -> Fault {
        let (number, place) = match error {
            ReadError::FileLength => (1, 0),
            ReadError::Version => (2, 0),
            ReadError::TaskCount => (3, 0),
            ReadError::TotalLength => (4, 0),
            ReadError::RowsOutside => (5, 1),
            ReadError::NamesOutside => (5, 2),
            ReadError::AreasOverlap => (6, 0),
            ReadError::StrayByte(offset) => (7, offset),
            ReadError::OutsideLimits(task) => (8, task),
            ReadError::PeriodsReversed(task) => (9, task),
            ReadError::BadName(task) => (10, task),
            ReadError::SameName(task) => (11, task),
        };
        Fault { number, place }
    }
}

impl From<WriteError> for Fault {
    ghost use Rattle.std.specs.Prelude.{◌≡◌};
    ghost use Rattle.plan.specs.Errors.{write_error_fault};

    ghost from_gives = { λ e f. f ≡ write_error_fault e };

    fn from(error: WriteError) -> Fault {
        match error {
            WriteError::Read(error) => error.into(),
            WriteError::SpaceLength { size: _ } => Fault {
                number: 40,
                place: 0,
            },
        }
    }
}
