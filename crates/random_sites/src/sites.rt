// Random sites, some of them damaged.
ghost use Rattle.std.specs.Prelude.{◌*◌, ◌≤◌, length};

use super::random::{chance, mix, pick, remainder, set, triples_end};
use super::words;
use super::words::{free_code, plain_words, word_at};
use model::Vocabulary;

// The own roster of the paper's example, with N 14.
pub const SIX_ROSTER: [u8; 14] = [0, 0, 0, 0, 0, 2, 2, 2, 1, 1, 0, 0, 0, 0];

// N: mostly 8 to 24, now and then less.
pub fn size(seed: u64) -> usize
    ensures { result ≤ 24 }
{
    let codes = if chance(seed, 1, 24) {
        pick(seed, 2, 8)
    } else {
        8 + pick(seed, 2, 17)
    };
    codes.min(24) as usize
}

// The length of a table: 0 to 20 triples, now and then one or two numbers more.
pub fn table_length(seed: u64) -> usize
    ensures { result ≤ 62 }
{
    let numbers = (3 * pick(seed, 3, 21) as usize).min(60);
    if chance(seed, 4, 24) {
        return (numbers + pick(seed, 5, 3) as usize).min(62);
    }
    numbers
}

// The length of a result: mostly enough.
pub fn room(seed: u64) -> usize
    ensures { result ≤ 600 }
{
    let numbers = if chance(seed, 6, 4) {
        pick(seed, 7, 90)
    } else {
        500 + pick(seed, 7, 101)
    };
    numbers.min(600) as usize
}

// A length that should be n: now and then it is another.
pub fn near(seed: u64, place: u64, n: usize) -> usize
    ensures { result ≤ 50 }
{
    let length = match pick(seed, place, 48) {
        0 => n.min(50) + 1,
        1 => n / 2,
        _ => n,
    };
    length.min(50)
}

// The codes that are not reserved are of three zones, each a third of them.
#[derive(Clone, Copy)]
enum Zone {
    Properties,
    Classes,
    Nodes,
}

impl Zone {
    // Where the zone begins, of zones of that size.
    fn start(self, third: u32) -> u32
        requires { third ≤ 1000 }
        ensures { result ≤ 2 * third }
    {
        match self {
            Self::Properties => 0,
            Self::Classes => third,
            Self::Nodes => 2 * third,
        }
    }
}

// A code of a zone. Now and then a code strays.
fn code(seed: u64, place: u64, zone: Zone, n: usize) -> u32 {
    let s = mix(seed, place);
    let free = n.min(24) as u32;
    if free <= 6 {
        return 5;
    }
    if chance(s, 0, 16) {
        return 5 + pick(s, 1, free - 5);
    }
    let third = (free - 3) / 3;
    5 + remainder(zone.start(third) + pick(s, 1, third), free - 5)
}

fn put_triple(table: &mut [u32], i: usize, s: u32, p: u32, o: u32) {
    if i < table.len() / 3 {
        let k = 3 * i;
        table[k..k + 3].copy_from_slice(&[s, p, o]);
    }
}

// What most triples of a table are.
#[derive(Clone, Copy)]
enum Mode {
    Mixed,
    Data,
    Schema,
}

impl Mode {
    fn of_site(seed: u64) -> Self {
        match pick(seed, 8, 3) {
            0 => Self::Mixed,
            1 => Self::Data,
            _ => Self::Schema,
        }
    }
}

// The reserved property of a triple, 0 to 4 for type, subclass, subproperty, domain and range, or none for data.
fn reserved(seed: u64, mode: Mode) -> Option<u32> {
    let k = pick(seed, 0, 12);
    match mode {
        Mode::Mixed if k < 5 => Some(k),
        Mode::Data if k < 2 => Some(0),
        Mode::Schema if k < 10 => Some(k % 5),
        _ => None,
    }
}

// Puts a triple at place i.
fn draw_triple(table: &mut [u32], i: usize, seed: u64, n: usize, mode: Mode) {
    let property = reserved(seed, mode);
    let (subjects, objects) = match property {
        None => (Zone::Nodes, Zone::Nodes),
        Some(0) => (Zone::Nodes, Zone::Classes),
        Some(1) => (Zone::Classes, Zone::Classes),
        Some(2) => (Zone::Properties, Zone::Properties),
        Some(_) => (Zone::Properties, Zone::Classes),
    };
    let s = code(seed, 1, subjects, n);
    let p = property.unwrap_or_else(|| code(seed, 3, Zone::Properties, n));
    let o = code(seed, 2, objects, n);
    put_triple(table, i, s, p, o);
}

// The seed of the triple at place i: now and then that of the first one, so that there are repeats.
fn triple_seed(seed: u64, i: usize) -> u64 {
    let s = mix(seed, i as u64);
    if chance(s, 50, 8) {
        return mix(seed, 0);
    }
    s
}

pub fn fill_table(table: &mut [u32], seed: u64, n: usize) {
    let mode = Mode::of_site(seed);
    let s = mix(seed, 9);
    for i in 0..table.len() / 3 {
        draw_triple(table, i, triple_seed(s, i), n, mode);
    }
}

// A place of a list of that length.
pub fn place_in(seed: u64, place: u64, length: usize) -> usize
    ensures { result ≤ 16777215 }
{
    pick(seed, place, length.min(1000) as u32) as usize
}

// One time in six, a code not below N or a reserved code at an end.
pub fn damage_table(words: Vocabulary, table: &mut [u32], seed: u64, n: usize) {
    let i = place_in(seed, 11, table.len());
    let k = 3 * place_in(seed, 11, table.len() / 3);
    match pick(seed, 10, 24) {
        0 => set(table, i, n.min(24) as u32 + pick(seed, 12, 3)),
        1 => set(table, i, 4294967295),
        2 => set(table, k, word_at(words, pick(seed, 12, 5))),
        3 => set(table, k + 2, word_at(words, pick(seed, 12, 5))),
        _ => (),
    }
}

// Marks a code that is not reserved.
fn mark_free(words: Vocabulary, roster: &mut [u8], seed: u64, place: u64, mark: u8) {
    let i = pick(seed, place, roster.len().min(1000) as u32);
    set(roster, free_code(words, i) as usize, mark);
}

// One time in three, marks more than the table needs.
fn mark_more(words: Vocabulary, roster: &mut [u8], seed: u64) {
    if !chance(seed, 20, 3) {
        return;
    }
    for place in 21..24 {
        mark_free(words, roster, seed, place, 3);
    }
}

// One time in four, a value over 3, a reserved code marked, or another mark than the table needs.
fn damage_roster(words: Vocabulary, roster: &mut [u8], seed: u64) {
    match pick(seed, 24, 20) {
        0 => set(roster, place_in(seed, 25, roster.len()), 4),
        1 => set(roster, word_at(words, pick(seed, 25, 5)) as usize, 1),
        2 => mark_free(words, roster, seed, 25, 0),
        3 => mark_free(words, roster, seed, 25, 1),
        4 => mark_free(words, roster, seed, 25, 2),
        _ => (),
    }
}

// A table and a roster, each perhaps damaged.
pub fn make(seed: u64, table: &mut [u32], roster: &mut [u8]) {
    let n = roster.len();
    let right = words::right(seed, n);
    fill_table(table, seed, n);
    words::rename(right, table);
    let _ = naive_checks::own_roster(plain_words(right), table, roster);
    mark_more(right, roster, seed);
    damage_table(right, table, seed, n);
    damage_roster(right, roster, seed);
}

// A list to summarise or to ask, and its length: the table, or every other time its saturation.
pub fn base(seed: u64, table: &mut [u32], roster: &mut [u8], list: &mut [u32]) -> usize
    ensures { result ≤ length list.new }
{
    make(seed, table, roster);
    if chance(seed, 35, 2) {
        let end = table.len().min(list.len());
        list[..end].copy_from_slice(&table[..end]);
        return end;
    }
    let site = naive_checks::Site {
        words: plain_words(words::right(seed, roster.len())),
        table,
        roster,
    };
    let count = naive_saturation::saturate(site, list).unwrap_or(0);
    triples_end(count, list.len())
}
