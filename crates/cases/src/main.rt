// Runs the specification's cases that are run, and writes what each check answers.
#![tactic(auto)]

use calls::answers::CheckAnswer;
use calls::options::LIMIT;
use designs::record::Record;
use designs::{conjunction, counter, holding, wide_side};
use lender::Memory;
use std::io;

// All numbers of an answer after a name, `equal` as 0 or 1.
fn tell(rt: &impl Print, name: &str, answer: CheckAnswer) -> io::Result<()> {
    let CheckAnswer {
        number,
        side,
        place,
        status,
        depth,
        mismatch,
        query,
        learned,
        learned_depth,
        learned_query,
        equal,
        through,
    } = answer;
    let equal = u8::from(equal);
    print!(rt;
        "{name}: number {number}, side {side}, place {place}, status {status}, depth {depth}, mismatch {mismatch}, query {query}, "
    )?;
    println!(rt;
        "learned {learned}, learned_depth {learned_depth}, learned_query {learned_query}, equal {equal}, through {through}"
    )
}

// Which two records are checked, by the specification's cases.
#[derive(Clone, Copy)]
enum Designs {
    // y = a And b against y = 0.
    Conjunction,
    // A wide side against one of so many.
    Wide(u8),
    // Nine-bit counters alike but for y.
    Counters,
}

impl Designs {
    // Gold's record and gate's. They are made where they are checked, so that no table holds them.
    fn records(self) -> (Record, Record) {
        match self {
            Designs::Conjunction => (conjunction(), holding()),
            Designs::Wide(count) => (wide_side(8), wide_side(count)),
            Designs::Counters => (counter(260), counter(255)),
        }
    }
}

// Two designs to be checked to a depth, in the mode of the earliest cycle or without it.
#[derive(Clone, Copy)]
struct Case<'a> {
    name: &'a str,
    designs: Designs,
    depth: u64,
    earliest: bool,
}

impl<'a> Case<'a> {
    // Without the mode of the earliest cycle.
    fn new(name: &'a str, designs: Designs, depth: u64) -> Case<'a> {
        Case {
            name,
            designs,
            depth,
            earliest: false,
        }
    }

    // The same in the mode of the earliest cycle.
    fn earliest(name: &'a str, designs: Designs, depth: u64) -> Case<'a> {
        let mut case = Case::new(name, designs, depth);
        case.earliest = true;
        case
    }

    // Makes the check under the largest limit, and writes the answer after its name.
    fn run(&self, rt: &impl Print, memory: &mut Memory) -> io::Result<()> {
        let (gold, gate) = self.designs.records();
        let answer = struo_formal::check(
            gold.bytes(),
            gate.bytes(),
            self.depth,
            LIMIT,
            self.earliest,
            memory.trace,
            memory.words,
            memory.scores,
        );
        tell(rt, self.name, answer)
    }
}

fn main(rt: HostRuntime) -> io::Result<()> {
    let mut trace = lender::trace();
    let mut words = lender::words();
    let mut scores = lender::scores();
    let mut memory = Memory {
        trace: &mut trace,
        words: &mut words,
        scores: &mut scores,
    };
    let cases = [
        Case::new("y = a And b at 64", Designs::Conjunction, 64),
        // The bound of refusal 23: 65,535 is accepted, 66,186 is not.
        Case::new("65,535 at 64", Designs::Wide(7), 64),
        Case::new("66,186 at 64", Designs::Wide(8), 64),
        Case::new("nine-bit counters at 8", Designs::Counters, 8),
        Case::new("nine-bit counters at 64", Designs::Counters, 64),
        Case::earliest(
            "y = a And b at 64, earliest cycle",
            Designs::Conjunction,
            64,
        ),
        Case::earliest(
            "nine-bit counters at 8, earliest cycle",
            Designs::Counters,
            8,
        ),
    ];
    for case in &cases {
        case.run(&rt, &mut memory)?;
    }
    Ok(())
}
