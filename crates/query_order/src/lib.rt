// The order in which the patterns of a query are searched. Which order is a matter of time only; what is promised is in specs/Order.
#![tactic(auto)]

ghost use Rattle.std.specs.Prelude.{◌<◌, ◌≤◌};
ghost use Rattle.query_order.specs.Order.{Arranged};

use lists::Code;
use query::{End, Pattern, Query};

// The variable at an end that has no node yet, as a bit of a mask; 0 if there is none.
fn free_bit(e: End, bindings: [u32; 8]) -> u32 {
    match e {
        End::Var(v) if Code(bindings[(v % 8) as usize]).is_absent() => 1 << (v % 8),
        _ => 0,
    }
}

// The variables of a pattern that have no node yet.
fn free_bits(p: Pattern, bindings: [u32; 8]) -> u32 {
    free_bit(p.subject, bindings) | free_bit(p.object, bindings)
}

// How soon a pattern should be tried: one that touches a variable met before comes first, then the one with more ends known.
fn score(p: Pattern, bindings: [u32; 8], met: u32) -> u32 {
    let x = free_bit(p.subject, bindings);
    let y = free_bit(p.object, bindings);
    4 * ((x | y) & met != 0) as u32 + (x & met == x) as u32 + (y & met == y) as u32
}

// The counted pattern from k on to be tried next.
fn next_pattern(q: Query, k: usize, bindings: [u32; 8], met: u32) -> usize
    requires { (k < q.count) × (q.count ≤ 8) }
    ensures { (k ≤ result) × (result < q.count) }
{
    let mut best = k;
    let mut most = 0;
    for j in k..q.count as usize {
        let points = score(q.patterns[j], bindings, met);
        if most < points {
            most = points;
            best = j;
        }
    }
    best
}

// The patterns from k on in an order in which each touches a variable of one before it, if any does.
pub fn arrange(q: Query, k: usize, bindings: [u32; 8]) -> Query
    requires { q.count ≤ 8 }
    ensures { Arranged k q result }
{
    let mut r = q;
    let mut met = 0;
    for j in k..q.count as usize {
        let best = next_pattern(r, j, bindings, met);
        r.patterns.swap(j, best);
        met |= free_bits(r.patterns[j], bindings);
    }
    r
}
