// The thorough search: parts of a query that share no variable, each in a good order, within domains, and one variable after the other
// fixed while a cycle is left. The quick run before it.
#![tactic(auto)]

ghost use Rattle.std.specs.Prelude.{◌≡◌, false, ◌+◌, ◌<◌, ◌≤◌, length, get_or, is_some, IfSome};
ghost use Rattle.model.specs.Codes.{absent};
ghost use Rattle.model.specs.Triples.{triples};
ghost use Rattle.query.specs.Ask.{search, unbound, wrong_query};
ghost use Rattle.query_rows.specs.Rows.{Sized};
ghost use Rattle.query_settling.specs.Settling.{Searchable, SettleNeeds, Settled, RowsKept, KeptFor, NextFixed, MaySettle};

use lists::Code;
use query::Query;
use query_components::part_end;
use query_domains::sweep_all;
use query_fixing::variable_to_fix;
use query_order::arrange;
use query_rows::{copy_row, next_in_row, nodes_in};
use query_search::try_pattern;

// The steps that the search within the domains may take before a variable is fixed; the more nodes that one has, the more. No limit
// where there is none to fix.
fn step_limit(rows: &[u64], fixed: Option<usize>, patterns: usize, triples: usize) -> Option<usize>
    requires { Sized rows.now × (patterns ≤ 8) × (triples ≤ 1048576) × IfSome fixed (λ v. v < 13) }
    ensures { is_some result ≡ is_some fixed }
{
    let nodes = nodes_in(rows, fixed?);
    Some(4096 + patterns * triples * (16 + nodes / 4))
}

// The variable to fix, if there is a cycle and not three are fixed already.
fn next_fixed(q: Query, k: usize, bindings: [u32; 8], depth: usize) -> Option<usize>
    requires { q.count ≤ 8 }
    ensures { IfSome result (λ v. NextFixed bindings depth v) }
{
    if depth < 3 {
        return variable_to_fix(q, k, bindings);
    }
    None
}

// Whether some choice of nodes at these bindings puts the patterns from k on, one part in a good order, in the table. Where there is a
// cycle the search has a limit; if it gives up, a variable is fixed to each of its nodes.
#[cycle(settle_settle_each_settle_parts)]
fn settle(
    table: &[u32],
    map: &[u32],
    rows: &mut [u64],
    q: Query,
    k: usize,
    bindings: [u32; 8],
    rising: bool,
    depth: usize,
) -> bool
    requires { SettleNeeds table.now map.now rows.old q k bindings rising × (depth ≤ 3) }
    ensures { Settled table.now map.now q k bindings result × RowsKept rows.old rows.new (10 + depth) }
{
    if !sweep_all(table, map, rows, q, k, bindings) {
        return false;
    }
    let fixed = next_fixed(q, k, bindings, depth);
    let mut steps = step_limit(rows, fixed, q.count as usize - k, table.len() / 3);
    let first = try_pattern(table, map, rows, q, bindings, k, rising, &mut steps);
    if let Ok(found) = first {
        return found;
    }
    // a search with no limit does not give up
    let Some(fixed) = fixed else {
        return false;
    };
    copy_row(rows, 10 + depth, fixed);
    settle_each(table, map, rows, q, k, bindings, rising, depth, fixed)
}

// The same with the variable `fixed` given each node of row 10 + depth in turn; then the patterns may fall into parts again.
#[cycle(settle_settle_each_settle_parts)]
fn settle_each(
    table: &[u32],
    map: &[u32],
    rows: &mut [u64],
    q: Query,
    k: usize,
    bindings: [u32; 8],
    rising: bool,
    depth: usize,
    fixed: usize,
) -> bool
    requires { SettleNeeds table.now map.now rows.old q k bindings rising × (depth < 3) × (fixed < 8) × (get_or bindings fixed 0 ≡ absent) × KeptFor table.now map.now rows.old q k bindings (10 + depth) fixed }
    ensures { Settled table.now map.now q k bindings result × RowsKept rows.old rows.new (10 + depth) }
{
    let n = map.len();
    let mut x = 0;
    while x < n {
        let node = next_in_row(rows, 10 + depth, x, n);
        if node == n {
            return false;
        }
        let mut more = bindings;
        more[fixed] = node as u32;
        if settle_parts(table, map, rows, q, k, more, rising, depth + 1) {
            return true;
        }
        x = node + 1;
    }
    false
}

// False: no choice of nodes at these bindings puts the patterns from k on in the table. Where a variable is fixed all patterns are swept
// before their parts are searched, because a node that fails mostly fails here.
fn may_settle(
    table: &[u32],
    map: &[u32],
    rows: &mut [u64],
    q: Query,
    k: usize,
    bindings: [u32; 8],
    depth: usize,
) -> bool
    requires { (wrong_query (length map.now) q ≡ false) × Sized rows.old }
    ensures { MaySettle table.now map.now rows.old rows.new q k bindings result }
{
    depth == 0 || sweep_all(table, map, rows, q, k, bindings)
}

// Whether some choice of nodes at these bindings puts the patterns from k on in the table: every part of them has one.
#[cycle(settle_settle_each_settle_parts)]
fn settle_parts(
    table: &[u32],
    map: &[u32],
    rows: &mut [u64],
    q: Query,
    k: usize,
    bindings: [u32; 8],
    rising: bool,
    depth: usize,
) -> bool
    requires { SettleNeeds table.now map.now rows.old q k bindings rising × (depth ≤ 3) }
    ensures { Settled table.now map.now q k bindings result × RowsKept rows.old rows.new (10 + depth) }
{
    if !may_settle(table, map, rows, q, k, bindings, depth) {
        return false;
    }
    let ordered = arrange(q, k, bindings);
    let count = ordered.count as usize;
    let mut j = k;
    while j < count {
        let end = part_end(ordered, k, j, bindings);
        let part = Query {
            count: end as u32,
            ..ordered
        };
        if !settle(table, map, rows, part, j, bindings, rising, depth) {
            return false;
        }
        j = end;
    }
    true
}

// Whether some choice of nodes for the variables puts every counted pattern in the table: a quick run through the patterns as they are
// written, and where its steps are used up the thorough search.
pub fn some_choice(table: &[u32], map: &[u32], q: Query, rising: bool) -> bool
    requires { Searchable table.now map.now q rising }
    ensures { result ≡ search (triples table.now) map.now q.patterns q.count 0 unbound }
{
    let count = q.count as usize;
    let mut steps = if 1 < count {
        Some(2048 + 2 * count * (table.len() / 3))
    } else {
        None
    };
    let unbound = [Code::ABSENT; 8];
    let quick = try_pattern(table, map, &[], q, unbound, 0, rising, &mut steps);
    if let Ok(found) = quick {
        return found;
    }
    // 13 rows of 64 words: 4,096 bits a variable
    let mut rows = [0u64; 832];
    settle_parts(table, map, &mut rows, q, 0, unbound, rising, 0)
}
