ghost use Rattle.std.specs.Prelude.{◌≡◌};
ghost use Rattle.std.proofs.lemmas.List.Edits.{sets};
ghost use Rattle.plan.specs.Words.{words_of};
ghost use Rattle.desk.specs.Block.{periods_at};
ghost use Rattle.desk.specs.Inner.{Narrow, Writes};

use optimizer::Answer;
use plan::{Plan, put_bytes, put_words};

// What the answer block carries: an answer, how many tasks there are, and sixteen periods, as C has them.
#[derive(Clone, Copy, Debug, PartialEq, Eq)]
pub struct Carried {
    pub answer: Answer,
    pub tasks: u32,
    pub periods: [u32; Plan::MAX_TASKS],
}

impl Carried {
    // The bytes of a block, and where the periods begin.
    pub const SIZE: usize = 100;

    const PERIODS_AT: usize = 36;

    // The periods behind the answer. By itself, since the check says of an array behind a reference alone that its
    // numbers fit their type.
    fn put_periods(block: &mut [u8; Carried::SIZE], periods: &[u32; Plan::MAX_TASKS])
        ensures put { block.new ≡ sets block.old periods_at (words_of periods.now) }
        ensures narrow { Narrow periods.now }
    {
        put_words(block, Carried::PERIODS_AT, periods);
    }

    // The block.
    pub fn to_bytes(self) -> [u8; Carried::SIZE]
        ensures { Writes self result }
    {
        let answer = self.answer;
        let mut block = [0; Carried::SIZE];
        put_bytes(&mut block, 0, &answer.fault.number.to_le_bytes());
        put_bytes(&mut block, 4, &answer.fault.place.to_le_bytes());
        put_bytes(&mut block, 8, &answer.cost.to_le_bytes());
        put_bytes(&mut block, 16, &answer.rounds.to_le_bytes());
        put_bytes(&mut block, 24, &answer.bound.to_le_bytes());
        put_bytes(&mut block, 32, &self.tasks.to_le_bytes());
        Carried::put_periods(&mut block, &self.periods);
        block
    }
}
