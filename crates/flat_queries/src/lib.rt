// Queries as lists of numbers: 41 numbers to a query, and queries to numbers.
#![tactic(auto)]

ghost use Rattle.std.specs.Prelude.{◌≡◌, ◌+◌, ◌*◌, ◌<◌, length};
ghost use Rattle.std.proofs.lemmas.List.Edits.{sets};
ghost use Rattle.flat_queries.specs.Flat.{end_of, flat_pattern, flat_query, end_numbers, pattern_numbers, query_numbers, flat_queries};

use query::{End, Pattern, Query, blank_pattern};
use site_form::MOST_ASKS;

// The numbers of a flat query: the count, and five for each of eight patterns.
pub const QUERY_NUMBERS: usize = 41;

// The numbers of the sixteen flat queries of a text.
pub const QUERIES_NUMBERS: usize = 656;

// An end from its two numbers: 0 and a variable, or 1 and a code. Another first number gives a variable over 7, which ask refuses.
#[tactic(auto, unfolding(crate::specs::Flat::end_of))]
fn end_of(kind: u32, value: u32) -> End
    ensures { result ≡ end_of kind value }
{
    match kind {
        0 => End::Var(value),
        1 => End::Code(value),
        _ => End::Var(8),
    }
}

// The pattern at place k of a flat query.
#[tactic(auto, unfolding(crate::specs::Flat::pattern_from))]
fn flat_pattern(query: &[u32], k: usize) -> Pattern
    requires { (length query.now ≡ 41) × (k < 8) }
    ensures { result ≡ flat_pattern query.now k }
{
    let i = 5 * k + 1;
    Pattern {
        subject: end_of(query[i], query[i + 1]),
        property: query[i + 2],
        object: end_of(query[i + 3], query[i + 4]),
    }
}

// The query of a flat query.
pub fn query_of(query: &[u32]) -> Query
    requires { length query.now ≡ 41 }
    ensures { result ≡ flat_query query.now }
{
    let mut patterns = [blank_pattern(); 8];
    for k in 0..8 {
        patterns[k] = flat_pattern(query, k);
    }
    Query {
        patterns,
        count: query[0],
    }
}

// Stores an end's two numbers.
#[tactic(auto, unfolding(crate::specs::Flat::end_numbers))]
fn put_end(list: &mut [u32], i: usize, e: End)
    requires { i + 1 < length list.old }
    ensures { list.new ≡ sets list.old i (end_numbers e) }
{
    match e {
        End::Var(v) => {
            list[i] = 0;
            list[i + 1] = v;
        },
        End::Code(c) => {
            list[i] = 1;
            list[i + 1] = c;
        },
    }
}

// Stores a pattern's five numbers.
fn put_pattern(list: &mut [u32], i: usize, p: Pattern)
    requires { i + 4 < length list.old }
    ensures { list.new ≡ sets list.old i (pattern_numbers p) }
{
    put_end(list, i, p.subject);
    list[i + 2] = p.property;
    put_end(list, i + 3, p.object);
}

// Stores a query as the k-th flat query of the list.
fn put_query(list: &mut [u32], k: usize, q: Query)
    requires { (length list.old ≡ 656) × (k < 16) }
    ensures { list.new ≡ sets list.old (41 * k) (query_numbers q) }
{
    let i = QUERY_NUMBERS * k;
    list[i] = q.count;
    for j in 0..8 {
        put_pattern(list, i + 1 + 5 * j, q.patterns[j]);
    }
}

// Stores sixteen queries as flat queries.
pub fn put_queries(list: &mut [u32], queries: [Query; MOST_ASKS])
    requires { length list.old ≡ 656 }
    ensures { list.new ≡ flat_queries queries }
{
    for k in 0..MOST_ASKS {
        put_query(list, k, queries[k]);
    }
}
