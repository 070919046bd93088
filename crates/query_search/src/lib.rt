// The search for a choice of nodes: the patterns of a query tried with the triples of a table, within domains and a limit of steps.
#![tactic(auto)]

ghost use Rattle.std.specs.Prelude.{◌≡◌, false, ◌+◌, ◌*◌, ◌<◌, ◌≤◌, is_err, length};
ghost use Rattle.model.specs.Triples.{triples};
ghost use Rattle.lists.specs.Flat.{at};
ghost use Rattle.query.specs.Ask.{pattern_at, wrong_query};
ghost use Rattle.query.specs.Choices.{Present};
ghost use Rattle.query_places.specs.Places.{InOrder};
ghost use Rattle.query_search.specs.Search.{Sought, SoughtAt, Spent};

use query::Query;
use query_parts::fit_end;
use query_places::first_fit;
use query_rows::allowed;

// The steps of a limited search are used up.
#[derive(Clone, Copy, Debug, PartialEq, Eq)]
pub struct GaveUp;

// Takes a cost off the steps that are left, if there is a limit. The search gives up where none is left then.
fn spend(steps: &mut Option<usize>, cost: usize) -> Result<(), GaveUp>
    ensures { Spent steps.old cost steps.new (is_err result) }
{
    let Some(before) = *steps else {
        return Ok(());
    };
    let left = before.saturating_sub(cost);
    *steps = Some(left);
    if left == 0 {
        return Err(GaveUp);
    }
    Ok(())
}

// Tries pattern k with one triple after the other, within the steps that are left (none: no limit), and with each the patterns after it: on the stack stand one call of this and one of
// try_triple for each pattern.
#[cycle(try_pattern_try_triple)]
pub fn try_pattern(
    table: &[u32],
    map: &[u32],
    rows: &[u64],
    q: Query,
    bindings: [u32; 8],
    k: usize,
    rising: bool,
    steps: &mut Option<usize>,
) -> Result<bool, GaveUp>
    requires { (wrong_query (length map.now) q ≡ false) × (k < q.count) × InOrder table.now rising × Present (triples table.now) × (length rows.now ≤ 13312) × (length bindings ≡ 8) }
    ensures { Sought table.now map.now rows.now q k bindings steps.old steps.new result }
{
    let pattern = q.patterns[k];
    let n = table.len() / 3;
    let mut from = 0;
    while from < n {
        let first = first_fit(table, map, pattern, bindings, from, n, rising);
        spend(steps, first.cost)?;
        let i = first.place;
        if i == n {
            return Ok(false);
        }
        if try_triple(table, map, rows, q, bindings, k, i, rising, steps)? {
            return Ok(true);
        }
        from = i + 1;
    }
    Ok(false)
}

// Tries pattern k with the triple at place i, which has its property: a triple that fits tries the next pattern.
#[cycle(try_pattern_try_triple)]
fn try_triple(
    table: &[u32],
    map: &[u32],
    rows: &[u64],
    q: Query,
    bindings: [u32; 8],
    k: usize,
    i: usize,
    rising: bool,
    steps: &mut Option<usize>,
) -> Result<bool, GaveUp>
    requires { (wrong_query (length map.now) q ≡ false) × (k < q.count) × (3 * i + 2 < length table.now) × ((at table.now i).property ≡ (pattern_at q k).property) × InOrder table.now rising × Present (triples table.now) × (length rows.now ≤ 13312) × (length bindings ≡ 8) }
    ensures { SoughtAt table.now map.now rows.now q k bindings i steps.old steps.new result }
{
    let pattern = q.patterns[k];
    let triple = lists::triple_at(table, i);
    let subject = pattern.subject;
    let object = pattern.object;
    if !allowed(rows, subject, triple.subject) || !allowed(rows, object, triple.object) {
        return Ok(false);
    }
    let Some(bound) = fit_end(map, subject, triple.subject, bindings) else {
        return Ok(false);
    };
    let Some(next) = fit_end(map, object, triple.object, bound) else {
        return Ok(false);
    };
    let count = q.count as usize;
    if k + 1 == count {
        return Ok(true);
    }
    try_pattern(table, map, rows, q, next, k + 1, rising, steps)
}
