// Look up and ask.
#![tactic(auto)]

use naive_checks::{check_codes, refuse_if, table_wrong};
use naive_lists::{Refusal, Triple, Words, entry, holds, number_at, place, triples_of};
use std::array;

// Whether a list holds a triple, and how many of its triples come before it.
#[derive(Clone, Copy, PartialEq, Eq)]
pub struct Found {
    pub held: bool,
    pub place: usize,
}

pub fn look_up(list: &[u32], t: Triple) -> Result<Found, Refusal> {
    refuse_if(table_wrong(list.len()), Refusal::Length)?;
    let count = list.len() / 3;
    Ok(Found {
        held: holds(list, count, t),
        place: place(list, count, t),
    })
}

// One of eight variables, or a code.
#[derive(Clone, Copy, PartialEq, Eq)]
enum End {
    Variable(u32),
    Code(u32),
}

impl End {
    fn new(kind: u32, value: u32) -> Self {
        if kind == 0 {
            Self::Variable(value)
        } else {
            Self::Code(value)
        }
    }

    fn is_wrong(self, n: usize) -> bool {
        match self {
            Self::Variable(variable) => 7 < variable,
            Self::Code(code) => n <= code as usize,
        }
    }

    // What an end stands for: a variable for its chosen node, a code for its map entry.
    fn meaning(self, map: &[u32], choice: &[u32]) -> u32 {
        match self {
            Self::Variable(variable) => entry(choice, variable),
            Self::Code(code) => entry(map, code),
        }
    }
}

#[derive(Clone, Copy)]
struct Pattern {
    subject: End,
    property: u32,
    object: End,
}

impl Pattern {
    // Of five numbers: subject kind, subject, property, object kind, object. Kind 0 is a variable, any other a code.
    fn new(numbers: [u32; 5]) -> Self {
        let [subject_kind, subject, property, object_kind, object] = numbers;
        Self {
            subject: End::new(subject_kind, subject),
            property,
            object: End::new(object_kind, object),
        }
    }

    fn is_wrong(self, n: usize) -> bool {
        self.subject.is_wrong(n) || n <= self.property as usize || self.object.is_wrong(n)
    }

    // Whether it asks for schema triples: subclass, subproperty, domain or range.
    fn is_schema(self, words: Words) -> bool {
        self.property != words.instance && words.has(self.property)
    }

    fn has(self, variable: u32) -> bool {
        let end = End::Variable(variable);
        self.subject == end || self.object == end
    }

    // The triple that it asks for once nodes are chosen.
    fn triple(self, map: &[u32], choice: &[u32]) -> Triple {
        Triple::new(
            self.subject.meaning(map, choice),
            self.property,
            self.object.meaning(map, choice),
        )
    }
}

// Eight patterns, of which the first `count` are meant.
#[derive(Clone, Copy)]
struct Query {
    patterns: [Pattern; 8],
    count: usize,
}

impl Query {
    // Of 41 numbers: the count, then the patterns.
    fn new(numbers: &[u32]) -> Self {
        let pattern_at = |k| Pattern::new(array::from_fn(|i| number_at(numbers, 1 + 5 * k + i)));
        Self {
            patterns: array::from_fn(pattern_at),
            count: number_at(numbers, 0) as usize,
        }
    }

    fn is_wrong(self, n: usize) -> bool {
        self.count == 0
            || 8 < self.count
            || self.patterns.iter().take(self.count).any(|p| p.is_wrong(n))
    }

    fn is_retired(self, words: Words) -> bool {
        self.patterns
            .iter()
            .take(self.count)
            .any(|p| p.is_schema(words))
    }

    // Whether a choice puts every pattern in the table.
    fn fits(self, table: &[u32], map: &[u32], choice: &[u32]) -> bool {
        self.patterns
            .iter()
            .take(self.count)
            .all(|p| holds(table, table.len() / 3, p.triple(map, choice)))
    }

    // Whether a variable stands in a counted pattern.
    fn uses(self, variable: u32) -> bool {
        self.patterns
            .iter()
            .take(self.count)
            .any(|p| p.has(variable))
    }
}

// A node is a code that is subject or object of a triple.
fn is_node(table: &[u32], code: u32) -> bool {
    triples_of(table).any(|t| t.subject == code || t.object == code)
}

// Whether some nodes for this variable and the later ones do. A variable that no pattern has makes no difference.
fn choose(table: &[u32], map: &[u32], query: &Query, choice: [u32; 8], variable: usize) -> bool {
    if 8 <= variable {
        return query.fits(table, map, &choice);
    }
    if !query.uses(variable as u32) {
        return choose(table, map, query, choice, variable + 1);
    }
    for node in 0..map.len().min(65536) as u32 {
        if is_node(table, node) {
            let mut next = choice;
            next[variable] = node;
            if choose(table, map, query, next, variable + 1) {
                return true;
            }
        }
    }
    false
}

// Whether there may be a match: true is maybe, false none.
pub fn ask(words: Words, table: &[u32], map: &[u32], query: &[u32]) -> Result<bool, Refusal> {
    let n = map.len();
    check_codes(words, table, n)?;
    let asked = Query::new(query);
    refuse_if(asked.is_wrong(n), Refusal::Query)?;
    refuse_if(asked.is_retired(words), Refusal::Retired)?;
    Ok(choose(table, map, &asked, [0; 8], 0))
}
