// Domains: the nodes that each variable of a query may still have, so that no choice is lost. What they promise is in specs/Domains.
#![tactic(auto)]

ghost use Rattle.std.specs.Prelude.{◌≡◌, false, ◌+◌, ◌*◌, ◌/◌, ◌<◌, ◌≤◌, length};
ghost use Rattle.lists.specs.Flat.{at};
ghost use Rattle.query.specs.Ask.{wrong_pattern_end, wrong_query};
ghost use Rattle.query_rows.specs.Rows.{Sized};
ghost use Rattle.query_domains.specs.Domains.{stands_at, ends_agree, supports, TripleMarked, AllMarked, VariableBelow, DomainKept, Swept, RowFilled, Filled, SweptAll};

use lists::Code;
use query::{End, Pattern, Query};
use query_rows::{allowed, copy_row, put_in, set_row};

// Whether an end may stand for the node x: a variable within its domain, a code by its map entry.
#[tactic(auto, unfolding(crate::specs::Domains::stands_at, query::specs::Ask::wrong_pattern_end))]
fn may_stand(map: &[u32], rows: &[u64], e: End, x: u32) -> bool
    requires { (wrong_pattern_end (length map.now) e ≡ false) × (length rows.now ≤ 13312) }
    ensures { result ≡ stands_at map.now rows.now e x }
{
    match e {
        End::Var(_) => allowed(rows, e, x),
        End::Code(c) => map[c as usize] == x,
    }
}

// False only where both ends are one variable and x is not y.
#[tactic(auto, unfolding(crate::specs::Domains::ends_agree))]
fn ends_agree(e: End, f: End, x: u32, y: u32) -> bool
    ensures { result ≡ ends_agree e f x y }
{
    match (e, f) {
        (End::Var(v), End::Var(w)) => v != w || x == y,
        _ => true,
    }
}

// Whether the triple at place i supports the pattern within the domains.
fn supported(table: &[u32], map: &[u32], rows: &[u64], p: Pattern, i: usize) -> bool
    requires { (wrong_pattern_end (length map.now) p.subject ≡ false) × (wrong_pattern_end (length map.now) p.object ≡ false) × (length rows.now ≤ 13312) × (3 * i + 2 < length table.now) }
    ensures { result ≡ supports map.now rows.now p (at table.now i) }
{
    let triple = lists::triple_at(table, i);
    triple.property == p.property
        && may_stand(map, rows, p.subject, triple.subject)
        && may_stand(map, rows, p.object, triple.object)
        && ends_agree(p.subject, p.object, triple.subject, triple.object)
}

// Marks the ends of the triple at place i in rows 8 and 9, if it supports the pattern. Whether it does.
fn mark_triple(table: &[u32], map: &[u32], rows: &mut [u64], p: Pattern, i: usize) -> bool
    requires { (wrong_pattern_end (length map.now) p.subject ≡ false) × (wrong_pattern_end (length map.now) p.object ≡ false) × Sized rows.old × (3 * i + 2 < length table.now) }
    ensures { TripleMarked map.now rows.old rows.new p (at table.now i) result }
{
    if !supported(table, map, rows, p, i) {
        return false;
    }
    let triple = lists::triple_at(table, i);
    put_in(rows, 8, triple.subject);
    put_in(rows, 9, triple.object);
    true
}

// Marks the ends of all triples that support the pattern. Whether there is one.
fn mark_all(table: &[u32], map: &[u32], rows: &mut [u64], p: Pattern) -> bool
    requires { (wrong_pattern_end (length map.now) p.subject ≡ false) × (wrong_pattern_end (length map.now) p.object ≡ false) × Sized rows.old }
    ensures { AllMarked table.now map.now rows.old rows.new p (length table.now / 3) result }
{
    let mut some = false;
    for i in 0..table.len() / 3 {
        some |= mark_triple(table, map, rows, p, i);
    }
    some
}

// The domain of the variable at an end becomes what row v holds.
fn keep_end(rows: &mut [u64], e: End, v: usize)
    requires { Sized rows.old × VariableBelow e × (8 ≤ v) × (v < 10) }
    ensures { DomainKept rows.old rows.new e v }
{
    if let End::Var(u) = e {
        copy_row(rows, u as usize, v);
    }
}

// One pass over the table: the variables of a pattern keep only the nodes of triples that support it. Whether there is one.
fn sweep(table: &[u32], map: &[u32], rows: &mut [u64], p: Pattern) -> bool
    requires { (wrong_pattern_end (length map.now) p.subject ≡ false) × (wrong_pattern_end (length map.now) p.object ≡ false) × Sized rows.old }
    ensures { Swept table.now map.now rows.old rows.new p result }
{
    set_row(rows, 8, 0);
    set_row(rows, 9, 0);
    if !mark_all(table, map, rows, p) {
        return false;
    }
    keep_end(rows, p.subject, 8);
    keep_end(rows, p.object, 9);
    true
}

// The domain of a variable before any pass: its node alone, or every node.
fn fill_row(rows: &mut [u64], v: usize, node: u32)
    requires { Sized rows.old × (v < 8) }
    ensures { RowFilled rows.old rows.new v node }
{
    if Code(node).is_absent() {
        set_row(rows, v, u64::MAX);
    } else {
        set_row(rows, v, 0);
        put_in(rows, v, node);
    }
}

// The domains before any pass.
fn fill(rows: &mut [u64], bindings: [u32; 8])
    requires { Sized rows.old }
    ensures { Filled rows.old rows.new bindings }
{
    for v in 0..8 {
        fill_row(rows, v, bindings[v]);
    }
}

// The domains for the patterns from k on, swept from the last to the k-th. False: no choice puts them in the table.
pub fn sweep_all(
    table: &[u32],
    map: &[u32],
    rows: &mut [u64],
    q: Query,
    k: usize,
    bindings: [u32; 8],
) -> bool
    requires { (wrong_query (length map.now) q ≡ false) × Sized rows.old }
    ensures { SweptAll table.now map.now rows.old rows.new q k bindings result }
{
    fill(rows, bindings);
    for j in (k..q.count as usize).rev() {
        if !sweep(table, map, rows, q.patterns[j]) {
            return false;
        }
    }
    true
}
