// The checks before a call, each over all its input; the own roster.
#![tactic(auto)]

ghost use Rattle.std.specs.Prelude.{false, ◌≡◌, ◌↔◌, IsOk, IfErr};

mod rosters;

use naive_lists::{Refusal, Triple, Words, triples_of};
pub use rosters::own_roster;

// A mark says what a code is: 0 for neither of these, 3 for both.
const CLASS: u8 = 1;

const PROPERTY: u8 = 2;

// N is 5 to 65,536.
pub fn size_wrong(n: usize) -> bool {
    n < 5 || 65536 < n
}

// A table has three numbers to a triple and at most 1,048,576 triples.
pub fn table_wrong(length: usize) -> bool {
    length % 3 != 0 || 1048576 < length / 3
}

// The mark of a code.
pub fn mark(roster: &[u8], code: u32) -> u8 {
    roster.get(code as usize).copied().unwrap_or(0)
}

fn is_class(roster: &[u8], code: u32) -> bool {
    matches!(mark(roster, code), 1 | 3)
}

fn is_property(roster: &[u8], code: u32) -> bool {
    matches!(mark(roster, code), 2 | 3)
}

fn not_below(n: usize, code: u32) -> bool {
    n <= code as usize
}

fn words_repeat(words: Words) -> bool {
    let codes = words.codes();
    (1..5).any(|i| codes[..i].contains(&codes[i]))
}

// Two of the five codes equal, or one not below N.
pub fn words_wrong(words: Words, n: usize) -> bool {
    words.codes().iter().any(|code| not_below(n, *code)) || words_repeat(words)
}

// A roster value over 3, or a reserved code marked.
pub fn roster_wrong(words: Words, roster: &[u8]) -> bool {
    roster.iter().any(|value| 3 < *value)
        || words.codes().iter().any(|code| mark(roster, *code) != 0)
}

// A code not below N, or reserved as subject or object.
pub fn triple_wrong(words: Words, t: Triple, n: usize) -> bool {
    not_below(n, t.subject)
        || not_below(n, t.property)
        || not_below(n, t.object)
        || words.has(t.subject)
        || words.has(t.object)
}

// Whether each role of a triple is marked.
pub fn covered(words: Words, roster: &[u8], t: Triple) -> bool {
    if t.property == words.instance {
        is_class(roster, t.object)
    } else if t.property == words.subclass {
        is_class(roster, t.subject) && is_class(roster, t.object)
    } else if t.property == words.subproperty {
        is_property(roster, t.subject) && is_property(roster, t.object)
    } else if t.property == words.domain || t.property == words.range {
        is_property(roster, t.subject) && is_class(roster, t.object)
    } else {
        is_property(roster, t.property)
    }
}

// Refuses a call if something is wrong.
pub fn refuse_if(wrong: bool, refusal: Refusal) -> Result<(), Refusal>
    ensures passes { IsOk result ↔ (wrong ≡ false) }
    ensures refuses { IfErr result (λ e. e ≡ refusal) }
{
    if wrong { Err(refusal) } else { Ok(()) }
}

// The checks 1, 10, 3 of a table with n codes.
pub fn check_codes(words: Words, table: &[u32], n: usize) -> Result<(), Refusal> {
    refuse_if(size_wrong(n) || table_wrong(table.len()), Refusal::Length)?;
    refuse_if(words_wrong(words, n), Refusal::Words)?;
    refuse_if(
        triples_of(table).any(|t| triple_wrong(words, t, n)),
        Refusal::Code,
    )
}

// A table with the reserved codes and the roster that it is read by.
#[derive(Clone, Copy)]
pub struct Site<'a> {
    pub words: Words,
    pub table: &'a [u32],
    pub roster: &'a [u8],
}

impl Site<'_> {
    // The checks 1, 10, 2, 3, 4. The caller has looked at its other lists.
    pub fn check(self, others_wrong: bool) -> Result<(), Refusal> {
        let Self {
            words,
            table,
            roster,
        } = self;
        let n = roster.len();
        refuse_if(
            others_wrong || size_wrong(n) || table_wrong(table.len()),
            Refusal::Length,
        )?;
        refuse_if(words_wrong(words, n), Refusal::Words)?;
        refuse_if(roster_wrong(words, roster), Refusal::Roster)?;
        refuse_if(
            triples_of(table).any(|t| triple_wrong(words, t, n)),
            Refusal::Code,
        )?;
        refuse_if(
            triples_of(table).any(|t| !covered(words, roster, t)),
            Refusal::Cover,
        )
    }
}
