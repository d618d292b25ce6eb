use super::draw::Sequence;
use super::enumeration::Enumeration;
use super::file::{TestFile, Version};
use super::planner::{Changes, Run};
use super::{chains, clock, planner};
use std::{fmt, io};

const PLANS: u32 = 8000;

const LATE_PLANS: u32 = 40;

#[derive(Clone, Copy, Default)]
struct Counts {
    plans: u64,
    assignments: u64,
    times: clock::Counts,
    cheapest: planner::Counts,
}

impl Counts {
    // Compares over a plan in a version: TIMES at four period assignments, and CHEAPEST in four runs.
    fn compare(&mut self, sequence: &Sequence, version: Version, all: &Enumeration) {
        let plan = &all.plan;
        let plan_file = TestFile::from_plan(version, plan);
        let file = plan_file.bytes();
        self.plans = self.plans.saturating_add(1);
        self.assignments = self
            .assignments
            .saturating_add(u64::from(plan.assignments()));
        for k in 0..4 {
            let periods = sequence.draw_periods(k, plan);
            let delays = sequence.draw_delays(k, plan);
            let run = Run::draw(all, sequence, k);
            self.times
                .compare(file, plan, &periods, &delays, clock::SOON);
            self.cheapest.compare(&run, file);
        }
    }
}

impl fmt::Display for Counts {
    fn fmt<W: fmt::Write>(&self, f: &mut fmt::Formatter<W>) -> fmt::Result {
        let Counts {
            plans,
            assignments,
            times,
            cheapest,
        } = *self;
        write!(
            f,
            "slacks by the clock: plans {plans} {times}\n\
             cheapest periods by enumeration: plans {plans} period assignments {assignments} {cheapest}\n"
        )
    }
}

// The counts over the drawn plans: in version 1 without blocking and jitter, and in version 2 with both from 0 to 3;
// over plans whose last task is done late, if at all; and over lists of pairs.
#[derive(Clone, Copy, Default)]
struct Totals {
    free: Counts,
    delayed: Counts,
    changes: Changes,
    late: clock::Counts,
    chains: chains::Counts,
}

impl Totals {
    fn compare(&mut self, sequence: &Sequence) {
        let free = Enumeration::new(sequence.draw_plan(0));
        let delayed = Enumeration::new(sequence.draw_plan(3));
        self.free.compare(sequence, Version::One, &free);
        self.delayed.compare(sequence, Version::Two, &delayed);
        self.changes.compare(&free, &delayed);
        self.chains.compare(sequence);
    }

    fn compare_late(&mut self, sequence: &Sequence) {
        let plan = sequence.draw_late_plan();
        let plan_file = TestFile::from_plan(Version::Two, &plan);
        let periods = sequence.draw_periods(0, &plan);
        let delays = sequence.draw_delays(0, &plan);
        let file = plan_file.bytes();
        self.late
            .compare(file, &plan, &periods, &delays, clock::LONGEST);
    }
}

pub(crate) fn run(rt: &impl Print) -> io::Result<()> {
    let mut totals = Totals::default();
    let mut sequence = Sequence::new(1);
    for k in 0..PLANS {
        totals.compare(&sequence);
        if k < LATE_PLANS {
            totals.compare_late(&sequence);
        }
        sequence = Sequence::new(sequence.next_seed());
    }
    let Totals {
        free,
        delayed,
        changes,
        late,
        chains,
    } = totals;
    println!(rt;
        "{free}the same plans with blocking and jitter, in version 2\n{delayed}optimum with these: {changes}\n\
         slacks by the clock, every tick up to 2,000,000: {late}\n\
         predecessors by enumeration of chains: {chains}"
    )
}
