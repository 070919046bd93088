// What a call of one engine leaves, as four numbers: its answer, and two sums into which the answer and every lent list are folded.
// The two engines are run one after the other, each over its own lists, and what they leave is compared.
ghost use Rattle.std.specs.Prelude.{◌≤◌};

use super::report;
use std::{fmt, io};

const HALF: u64 = 4294967296;

// The factors of the two sums.
const ONE: u64 = 500000019;

const TWO: u64 = 698769069;

#[derive(Clone, Copy, PartialEq, Eq)]
pub struct Seen {
    pub refused: u32,
    pub count: usize,
    pub one: u64,
    pub two: u64,
}

#[derive(Clone, Copy, PartialEq, Eq)]
pub enum Engine {
    Proved,
    Plain,
}

// As it is printed before a list that it left.
impl fmt::Display for Engine {
    fn fmt<W: fmt::Write>(&self, f: &mut fmt::Formatter<W>) -> fmt::Result {
        f.write_str(match self {
            Self::Proved => "engine",
            Self::Plain => "plain",
        })
    }
}

// Which engine runs, and whether each list that is folded is printed.
#[derive(Clone, Copy)]
pub struct Run {
    pub engine: Engine,
    pub show: bool,
}

// The next sum: congruent to `sum * FACTOR + value` modulo the prime `FACTOR * 2^32 - 1`. A value is below 2^32.
fn step<const FACTOR: u64>(sum: u64, value: u64) -> u64
    requires { FACTOR ≤ 1000000000 }
{
    sum % HALF * FACTOR + sum / HALF + value % HALF
}

impl Seen {
    // An answer with the sums of what was left before it.
    pub fn next(self, refused: u32, count: usize) -> Self {
        let next = Self {
            refused,
            count,
            ..self
        };
        next.fold(u64::from(refused)).fold_count(count)
    }

    pub fn fold(self, value: u64) -> Self {
        Self {
            one: step::<ONE>(self.one, value),
            two: step::<TWO>(self.two, value),
            ..self
        }
    }

    // Folds a count, its high half too.
    pub fn fold_count(self, count: usize) -> Self {
        let value = count as u64;
        self.fold(value / HALF).fold(value)
    }

    fn fold_all<T: Copy + Into<u64>>(self, list: &[T]) -> Self {
        let mut next = self.fold(list.len() as u64);
        for number in list {
            next = next.fold((*number).into());
        }
        next
    }
}

// An answer before any list is folded.
pub fn answered(rt: &impl Print, run: Run, refused: u32, count: usize) -> io::Result<Seen> {
    if run.show {
        report::show_answer(rt, run.engine, refused, count)?;
    }
    let start = Seen {
        refused,
        count,
        one: 1,
        two: 1,
    };
    Ok(start.next(refused, count))
}

// Folds the place that a look up or a feed reports.
pub fn fold_place(rt: &impl Print, run: Run, seen: Seen, place: usize) -> io::Result<Seen> {
    if run.show {
        report::show_place(rt, run.engine, place)?;
    }
    Ok(seen.fold_count(place))
}

// Folds a list or a roster, its length and each number.
pub fn fold_list<T: Copy + Into<u64> + fmt::Display>(
    rt: &impl Print,
    run: Run,
    seen: Seen,
    name: &str,
    list: &[T],
) -> io::Result<Seen> {
    if run.show {
        report::show_list(rt, run.engine, name, list)?;
    }
    Ok(seen.fold_all(list))
}
