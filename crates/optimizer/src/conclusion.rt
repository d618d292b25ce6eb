use super::errors::CallError;
use plan::Fault;

// What a search stopped at: its budget of rounds, or the room of its work space.
#[derive(Clone, Copy, Debug, PartialEq, Eq)]
pub enum Stop {
    Budget,
    Room,
}

// How a search ends: with the cost of an answer, or at a stop, with the incumbent's cost and the bound.
#[derive(Clone, Copy, Debug, PartialEq, Eq)]
pub enum Conclusion {
    Answered {
        cost: u64,
        rounds: u64,
    },
    Stopped {
        stop: Stop,
        cost: u64,
        rounds: u64,
        bound: u64,
    },
}

// A conclusion or a refusal in numbers, as the answer block has them for C: 0 is what it does not say.
#[derive(Clone, Copy, Debug, PartialEq, Eq)]
pub struct Answer {
    pub fault: Fault,
    pub cost: u64,
    pub rounds: u64,
    pub bound: u64,
}

impl From<Stop> for Fault {
    ghost use Rattle.std.specs.Prelude.{◌≡◌};
    ghost use Rattle.optimizer.specs.Answers.{stop_fault};

    ghost from_gives = { λ s f. f ≡ stop_fault s };

    fn from(stop: Stop) -> Fault {
        let number = match stop {
            Stop::Budget => 33,
            Stop::Room => 34,
        };
        Fault { number, place: 0 }
    }
}

impl From<Conclusion> for Answer {
    ghost use Rattle.std.specs.Prelude.{◌≡◌};
    ghost use Rattle.optimizer.specs.Answers.{conclusion_answer};

    ghost from_gives = { λ c a. a ≡ conclusion_answer c };

    fn from(conclusion: Conclusion) -> Answer {
        match conclusion {
            Conclusion::Answered { cost, rounds } => Answer {
                fault: Fault::none(),
                cost,
                rounds,
                bound: 0,
            },
            Conclusion::Stopped {
                stop,
                cost,
                rounds,
                bound,
            } => Answer {
                fault: stop.into(),
                cost,
                rounds,
                bound,
            },
        }
    }
}

impl From<Result<Conclusion, CallError>> for Answer {
    ghost use Rattle.std.specs.Prelude.{◌≡◌};
    ghost use Rattle.optimizer.specs.Answers.{answer_of};

    ghost from_gives = { λ r a. a ≡ answer_of r };

    fn from(ended: Result<Conclusion, CallError>) -> Answer {
        match ended {
            Ok(conclusion) => conclusion.into(),
            Err(error) => Answer {
                fault: error.into(),
                cost: 0,
                rounds: 0,
                bound: 0,
            },
        }
    }
}
