// The tally: sixteen counts for each of ten calls, by the number answered, 15 for yes, maybe and new, and for a removal of a triple whose
// ends others keep; and the number of the differences.
use super::digest::Engine;
use std::{fmt, io};

pub const COLUMNS: usize = 16;

pub const YES: u32 = 15;

// The same as a column; the refusals are before it.
const YES_COLUMN: usize = 15;

const CALLS: usize = 10;

// Of so many differences the lists are printed.
const SHOWN: u64 = 3;

#[derive(Clone, Copy, PartialEq, Eq)]
pub enum Call {
    OwnRoster,
    Saturate,
    Cliques,
    Summarise,
    Strong,
    LookUp,
    Ask,
    Open,
    Feed,
    Remove,
}

impl Call {
    // In the order in which they are printed.
    const ALL: [Self; CALLS] = [
        Self::OwnRoster,
        Self::Saturate,
        Self::Cliques,
        Self::Summarise,
        Self::Strong,
        Self::LookUp,
        Self::Ask,
        Self::Open,
        Self::Feed,
        Self::Remove,
    ];
}

impl fmt::Display for Call {
    fn fmt<W: fmt::Write>(&self, f: &mut fmt::Formatter<W>) -> fmt::Result {
        f.write_str(match self {
            Self::OwnRoster => "own-roster",
            Self::Saturate => "saturate",
            Self::Cliques => "cliques",
            Self::Summarise => "summarise",
            Self::Strong => "summarise-strong",
            Self::LookUp => "look-up",
            Self::Ask => "ask",
            Self::Open => "open",
            Self::Feed => "feed",
            Self::Remove => "remove",
        })
    }
}

#[derive(Drop)]
pub struct Tally {
    answers: [[u64; COLUMNS]; CALLS],
    differences: u64,
}

impl Tally {
    pub fn new() -> Self {
        Self {
            answers: [[0; COLUMNS]; CALLS],
            differences: 0,
        }
    }

    // Counts an answer of a call.
    pub fn record(&mut self, call: Call, answer: u32) {
        self.record_all(call, answer as usize, 1);
    }

    // Counts so many answers of a call that stand in a column.
    pub fn record_all(&mut self, call: Call, column: usize, count: u64) {
        if let Some(total) = self.answers[call as usize].get_mut(column) {
            *total = total.wrapping_add(count);
        }
    }

    fn add_difference(&mut self) {
        self.differences = self.differences.wrapping_add(1);
    }

    // Reports what differs.
    pub fn check(
        &mut self,
        rt: &impl Print,
        call: Call,
        seed: u64,
        what: &str,
        ok: bool,
    ) -> io::Result<()> {
        if ok {
            return Ok(());
        }
        self.add_difference();
        println!(rt; "(different {call} case {seed} {what})")
    }

    // Reports that the engines left different answers or lists; whether the lists are to be printed.
    pub fn differs(&mut self, rt: &impl Print, call: Call, seed: u64) -> io::Result<bool> {
        self.add_difference();
        println!(rt; "(different {call} case {seed})")?;
        Ok(self.differences <= SHOWN)
    }

    // A call's counts, if there are any: the accepted answers, yes and no apart where it says so, and the two kinds of removals.
    fn print_line(&self, rt: &impl Print, call: Call) -> io::Result<()> {
        let answers = &self.answers[call as usize];
        let cases = answers.iter().fold(0u64, |sum, n| sum.wrapping_add(*n));
        if cases == 0 {
            return Ok(());
        }
        let accepted = answers[0];
        let yes = answers[YES_COLUMN];
        print!(rt; "({call} cases {cases}")?;
        match call {
            Call::LookUp | Call::Ask | Call::Feed => print!(rt; " yes {yes} no {accepted}")?,
            Call::Remove => print!(rt; " ends-kept {yes} others {accepted}")?,
            _ => print!(rt; " accepted {accepted}")?,
        }
        for number in 1..YES_COLUMN {
            let count = answers[number];
            if count != 0 {
                print!(rt; " refused-{number} {count}")?;
            }
        }
        println!(rt; ")")
    }

    // A line for each call that was compared, and the number of differences.
    pub fn print(&self, rt: &impl Print) -> io::Result<()> {
        for call in Call::ALL {
            self.print_line(rt, call)?;
        }
        println!(rt; "(differences {})", self.differences)
    }
}

// The answer of an engine.
pub fn show_answer(rt: &impl Print, engine: Engine, refused: u32, count: usize) -> io::Result<()> {
    println!(rt; "({engine} answer {refused} {count})")
}

// The place that an engine reported.
pub fn show_place(rt: &impl Print, engine: Engine, place: usize) -> io::Result<()> {
    println!(rt; "({engine} place {place})")
}

// A list or a roster that an engine left, at most its first 1,000 numbers.
pub fn show_list<T: fmt::Display>(
    rt: &impl Print,
    engine: Engine,
    name: &str,
    list: &[T],
) -> io::Result<()> {
    print!(rt; "({engine} {name}")?;
    for number in list.iter().take(1000) {
        print!(rt; " {number}")?;
    }
    println!(rt; ")")
}

// A small case of the paper: the number that it expects and the one that the engine answered; 15 stands for yes and maybe.
pub fn small(rt: &impl Print, call: Call, name: &[u8], expected: u32, got: u32) -> io::Result<()> {
    print!(rt; "(small {call} ")?;
    rt.write_all(name)?;
    println!(rt; " expected {expected} got {got})")
}

// The same for a site size.
pub fn sized(rt: &impl Print, call: Call, n: usize, expected: u32, got: u32) -> io::Result<()> {
    println!(rt; "(small {call} N {n} expected {expected} got {got})")
}

// How many tables had their summaries worked again.
pub fn reworked(rt: &impl Print, tables: u64) -> io::Result<()> {
    println!(rt; "(reworked tables {tables})")
}
