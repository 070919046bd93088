// Random queries: on a table, on its saturation and on a summary with its map. Of those that are not wrong one in nine asks for
// schema triples; wrong ones do so too, and patterns past the count.
ghost use Rattle.std.specs.Prelude.{◌≤◌, length};

use comparison::calls;
use comparison_report::report::Tally;
use lists::Code;
use model::Vocabulary;
use naive_checks::Site;
use naive_summary::{Equivalence, summarise};
use random_sites::random::{get, mix, pick, triples_end};
use random_sites::{sites, words};
use std::io;

// How many patterns: mostly 1 to 3.
fn count_of(seed: u64) -> u32 {
    match pick(seed, 0, 40) {
        0 => 0,
        x if x < 5 => 4 + x,
        5 => 9,
        x => 1 + x % 3,
    }
}

// A variable: mostly 0 to 2, now and then 7 or 8.
fn variable(seed: u64) -> u32 {
    match pick(seed, 1, 60) {
        0 => 7,
        1 => 8,
        x => x % 3,
    }
}

// An end for a node: 0 and a variable, or 1 and the node itself, or now and then any code.
fn end(seed: u64, node: u32) -> [u32; 2] {
    match pick(seed, 0, 40) {
        x if x < 28 => [0, variable(seed)],
        x if x < 37 => [1, node],
        _ => [1, pick(seed, 2, 26)],
    }
}

// The place of a triple of the list: of sixteen draws the first that is no schema triple.
fn place_of(seed: u64, right: Vocabulary, list: &[u32]) -> usize
    ensures { result ≤ 16777215 }
{
    let count = list.len() / 3;
    for k in 10..26 {
        let t = sites::place_in(seed, k, count);
        if !Code(get(list, 3 * t + 1)).is_schema(right) {
            return t;
        }
    }
    sites::place_in(seed, 1, count)
}

// A pattern's property: mostly that of its triple, now and then any, or that of a schema triple.
fn property(seed: u64, right: Vocabulary, own: u32) -> u32 {
    match pick(seed, 4, 72) {
        x if x < 3 => pick(seed, 5, 26),
        3 => words::word_at(right, 1 + pick(seed, 5, 4)),
        _ => own,
    }
}

// A pattern made of a triple of the list.
fn pattern(seed: u64, right: Vocabulary, list: &[u32]) -> [u32; 5] {
    let t = 3 * place_of(seed, right, list);
    let [kind, subject] = end(mix(seed, 2), get(list, t));
    let [other, object] = end(mix(seed, 3), get(list, t + 2));
    let property = property(seed, right, get(list, t + 1));
    [kind, subject, property, other, object]
}

fn query_of(seed: u64, right: Vocabulary, list: &[u32]) -> [u32; 41] {
    let mut query = [0u32; 41];
    query[0] = count_of(seed);
    for k in 0..8 {
        let numbers = pattern(mix(seed, 10 + k as u64), right, list);
        query[1 + 5 * k..6 + 5 * k].copy_from_slice(&numbers);
    }
    query
}

// Each code stands for itself.
pub fn identity(map: &mut [u32]) {
    let mut code = 0u32;
    for entry in map {
        *entry = code;
        code = code.wrapping_add(1);
    }
}

// Summarises; the numbers of the summary.
fn summary_end(
    right: Vocabulary,
    list: &[u32],
    roster: &[u8],
    summary: &mut [u32],
    map: &mut [u32],
) -> usize
    ensures { result ≤ length summary.new }
{
    let mut work = [0u32; 50];
    let w = 2 * roster.len().min(24);
    let site = Site {
        words: words::plain_words(right),
        table: list,
        roster,
    };
    let answer = summarise(site, Equivalence::Weak, summary, map, &mut work[0..w]);
    triples_end(answer.unwrap_or(0), summary.len())
}

// A query on a list and on its summary, with its map of that length.
fn ask_both(
    rt: &impl Print,
    tally: &mut Tally,
    seed: u64,
    list: &[u32],
    roster: &[u8],
    length: usize,
) -> io::Result<()> {
    let mut summary = [0u32; 240];
    let mut map = [0u32; 50];
    let map = &mut map[..length.min(50)];
    let right = words::right(seed, roster.len());
    let given = words::given(seed, roster.len());
    let end = summary_end(right, list, roster, &mut summary, map);
    let query = query_of(mix(seed, 61), right, list);
    calls::ask(rt, tally, seed, given, list, map, &query)?;
    calls::ask(rt, tally, seed, given, &summary[..end], map, &query)?;
    Ok(())
}

// A query with the codes as they are.
fn ask_plain(
    rt: &impl Print,
    tally: &mut Tally,
    seed: u64,
    n: usize,
    list: &[u32],
    length: usize,
) -> io::Result<()> {
    let mut map = [0u32; 50];
    let map = &mut map[..length.min(50)];
    identity(map);
    let query = query_of(mix(seed, 62), words::right(seed, n), list);
    calls::ask(rt, tally, seed, words::given(seed, n), list, map, &query)?;
    Ok(())
}

fn ask_case(rt: &impl Print, tally: &mut Tally, seed: u64) -> io::Result<()> {
    let mut table = [0u32; 62];
    let mut roster = [0u8; 24];
    let mut closed = [0u32; 240];
    let n = sites::size(seed);
    let t = sites::table_length(seed);
    let m = sites::near(seed, 63, n);
    let roster = &mut roster[..n];
    let end = sites::base(seed, &mut table[..t], roster, &mut closed);
    let list = &closed[..end];
    ask_both(rt, tally, seed, list, roster, m)?;
    ask_plain(rt, tally, seed, n, list, m)
}

pub fn all(rt: &impl Print, tally: &mut Tally) -> io::Result<()> {
    for seed in 1000000..1100000 {
        ask_case(rt, tally, seed)?;
    }
    Ok(())
}
