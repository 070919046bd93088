// Random lists of feeds to random sites; what random chains of calls share with them.
ghost use Rattle.std.specs.Prelude.{◌≤◌};

use comparison_report::report::Tally;
use fed_intakes::both::{compare, record_calls, record_open};
use fed_intakes::inputs::{Call, Case, Input};
use lists::rdfs_words;
use model::Vocabulary;
use random_sites::random::{chance, get, mix, pick, set};
use random_sites::{sites, words};
use std::io;

fn damage(seed: u64, words: Vocabulary, table: &mut [u32], n: usize) {
    for place in 71..74 {
        sites::damage_table(words, table, mix(seed, place), n);
    }
}

// A table to be fed, and a roster that may leave a triple uncovered.
pub fn make(seed: u64, table: &mut [u32], roster: &mut [u8]) {
    sites::make(seed, table, roster);
    let n = roster.len();
    damage(seed, words::right(seed, n), table, n);
}

// Makes a roster wrong: a value over 3 at any place, or a mark at a reserved code.
pub fn spoil(seed: u64, words: Vocabulary, roster: &mut [u8]) {
    let (place, mark) = if chance(seed, 76, 2) {
        let place = pick(seed, 77, roster.len().min(24) as u32);
        (place, (4 + pick(seed, 78, 252)).min(255))
    } else {
        let place = words::word_at(words, pick(seed, 77, 5));
        (place, (1 + pick(seed, 78, 3)).min(3))
    };
    set(roster, place as usize, mark as u8);
}

// The words of the opening, now and then spoilt.
fn words_fed(words: Vocabulary, seed: u64, n: usize) -> Vocabulary {
    if chance(seed, 0, 48) {
        return words::spoilt(words, mix(seed, 1), n);
    }
    words
}

// What feeds are drawn from: a seed, the words of the opening, and a table for n codes.
#[derive(Clone, Copy)]
pub struct Source<'a> {
    pub seed: u64,
    pub words: Vocabulary,
    pub table: &'a [u32],
    pub n: usize,
}

impl Source<'_> {
    // A feed of the triple at a place of the table, the call at place i; now and then with wrong words, a work list of a wrong length, or
    // the spoilt roster.
    pub fn feed(&self, place: usize, i: usize) -> Call {
        let seed = self.seed;
        let n = self.n;
        let k = 3 * place.min(1000);
        let x = 3 * i.min(1000) as u64;
        Call {
            work: sites::near(mix(seed, 70), x, 2 * n.min(24)),
            subject: get(self.table, k),
            property: get(self.table, k + 1),
            object: get(self.table, k + 2),
            words: words_fed(self.words, mix(mix(seed, 74), x), n),
            spoilt: chance(mix(seed, 75), x, 48),
            removes: false,
        }
    }
}

// The length of an intake's list: few slots, or enough.
pub fn room(seed: u64) -> usize
    ensures { result ≤ 97 }
{
    let numbers = if chance(seed, 80, 2) {
        pick(seed, 81, 46)
    } else {
        90 + pick(seed, 81, 6)
    };
    numbers.min(97) as usize
}

// The length of the summary list: as many slots, now and then half as long.
fn summary_room(seed: u64, r: usize) -> usize {
    let numbers = if chance(seed, 82, 24) {
        r / 2
    } else {
        (r / 3 * 3).min(97) + pick(seed, 83, 3) as usize
    };
    numbers.min(100)
}

// The length of the weights: the slots; now and then one more, one less, three times as many, or none.
fn weights_room(seed: u64, r: usize) -> usize {
    let slots = (r / 3).min(33);
    match pick(seed, 85, 96) {
        0 => slots + 1,
        1 => slots.saturating_sub(1),
        2 => 3 * slots,
        3 => 0,
        _ => slots,
    }
}

fn case_of(seed: u64, n: usize, calls: usize) -> Case {
    let r = room(seed);
    Case {
        words: words::given(seed, n),
        opens: true,
        calls,
        triples: r,
        summary: summary_room(seed, r),
        weights: weights_room(seed, r),
        map: sites::near(seed, 84, n),
    }
}

// A site that is drawn, with its calls: how many, and how they are filled in from a source.
pub fn play<const CALLS: usize, F: Fn(Source<'_>, &mut [Call])>(
    rt: &impl Print,
    tally: &mut Tally,
    seed: u64,
    fill: F,
) -> io::Result<()>
    requires { (CALLS ≤ 60) × F.IsAlwaysCallable fill }
{
    let mut table = [0u32; 90];
    let mut roster = [0u8; 24];
    let mut spoilt = [0u8; 24];
    let mut calls = [Call::feed(rdfs_words(), 0, 0, 0, 0); CALLS];
    let n = sites::size(seed);
    let roster = &mut roster[..n];
    let spoilt = &mut spoilt[..n];
    make(seed, &mut table, roster);
    let given = words::given(seed, n);
    spoilt.copy_from_slice(roster);
    spoil(seed, given, spoilt);
    let source = Source {
        seed,
        words: given,
        table: &table,
        n,
    };
    fill(source, &mut calls);
    let input = Input {
        case: case_of(seed, n, CALLS),
        calls: &calls,
        roster,
        spoilt,
    };
    let state = compare(rt, tally, seed, input)?;
    record_open(tally, state);
    record_calls(tally, state);
    Ok(())
}

// The triples of a table, one after the other.
fn fill_feeds(source: Source<'_>, calls: &mut [Call]) {
    for i in 0..calls.len() {
        calls[i] = source.feed(i, i);
    }
}

pub fn all(rt: &impl Print, tally: &mut Tally) -> io::Result<()> {
    for seed in 2000000..2030000 {
        play::<30, _>(rt, tally, seed, fill_feeds)?;
    }
    Ok(())
}
