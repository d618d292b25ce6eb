ghost use Rattle.std.specs.Prelude.{◌≡◌};
ghost use Rattle.plan.specs.Faults.{none};

// A refusal as it goes out: the number of the rule that is broken and its place; number 0 is no refusal.
#[derive(Clone, Copy, Debug, PartialEq, Eq)]
pub struct Fault {
    pub number: u32,
    pub place: u32,
}

impl Fault {
    // What C's block and its like have where nothing is refused.
    pub fn none() -> Fault
        ensures { result ≡ none }
    {
        Fault {
            number: 0,
            place: 0,
        }
    }
}
