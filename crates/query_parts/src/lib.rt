// The checks of a query, and an end against a node.
#![tactic(auto)]

ghost use Rattle.std.specs.Prelude.{◌≡◌, false, ◌≤◌, length};
ghost use Rattle.query.specs.Kept.{kept};
ghost use Rattle.query.specs.Ask.{fit_end, wrong_pattern_end, wrong_pattern, wrong_query, retired};

use lists::Code;
use model::Vocabulary;
use query::{End, Pattern, Query};

#[tactic(auto, unfolding(query::specs::Ask::wrong_pattern_end))]
fn end_wrong(e: End, n: usize) -> bool
    ensures { result ≡ wrong_pattern_end n e }
{
    match e {
        End::Var(v) => 7 < v,
        End::Code(c) => n <= c as usize,
    }
}

#[tactic(auto, unfolding(query::specs::Ask::wrong_pattern))]
fn pattern_wrong(p: Pattern, n: usize) -> bool
    ensures { result ≡ wrong_pattern n p }
{
    end_wrong(p.subject, n) || n <= p.property as usize || end_wrong(p.object, n)
}

// Refusal 6, for a site of size n.
pub fn query_wrong(q: Query, n: usize) -> bool
    ensures { result ≡ wrong_query n q }
{
    let count = q.count as usize;
    if count == 0 || 8 < count {
        return true;
    }
    for k in 0..count {
        if pattern_wrong(q.patterns[k], n) {
            return true;
        }
    }
    false
}

// Refusal 12: a counted pattern's property is subclass, subproperty, domain or range.
pub fn query_retired(words: Vocabulary, q: Query) -> bool
    requires { q.count ≤ 8 }
    ensures { result ≡ retired words q }
{
    for i in 0..q.count as usize {
        if Code(q.patterns[i].property).is_schema(words) {
            return true;
        }
    }
    false
}

// The bindings after an end is put at the node x, if it fits there. A code stands for its map entry; a variable without a node takes x.
#[tactic(auto, unfolding(query::specs::Ask::fit_end, query::specs::Ask::wrong_pattern_end))]
pub fn fit_end(map: &[u32], e: End, x: u32, bindings: [u32; 8]) -> Option<[u32; 8]>
    requires { wrong_pattern_end (length map.now) e ≡ false }
    ensures { result ≡ kept (fit_end map.now e x bindings) }
{
    match e {
        End::Var(v) if Code(bindings[v as usize]).is_absent() => {
            let mut more = bindings;
            more[v as usize] = x;
            Some(more)
        }
        End::Var(v) => (bindings[v as usize] == x).then_some(bindings),
        End::Code(c) => (map[c as usize] == x).then_some(bindings),
    }
}
