// The first place of a table that may fit a pattern. What is promised of it is in specs/Places.
#![tactic(auto)]

ghost use Rattle.std.specs.Prelude.{◌≡◌, false, ◌+◌, ◌*◌, ◌<◌, ◌≤◌, length};
ghost use Rattle.model.specs.Lists.{First};
ghost use Rattle.lists.specs.Flat.{at, RisingPart};
ghost use Rattle.query.specs.Ask.{wrong_pattern_end};
ghost use Rattle.query_places.specs.Places.{with_property, FirstOf, FirstSame, FirstFit, front, wanted_of, InOrder};

use lists::{Code, lower_bound, triple_at};
use model::Triple;
use query::{End, Pattern};

// A place of a table, and the steps that finding it counts for: a scan 4 more than the places it passes over, a bisection 8.
#[derive(Clone, Copy)]
pub struct Reached {
    pub place: usize,
    pub cost: usize,
}

// The first place from..to whose triple has property p, or `to`.
#[tactic(auto, unfolding(crate::specs::Places::with_property, lists::specs::Flat::at))]
fn first_with(table: &[u32], p: u32, from: usize, to: usize) -> usize
    requires { (from ≤ to) × (3 * to ≤ length table.now) }
    ensures { First (with_property (at table.now) p) from to result }
{
    for i in from..to {
        if table[3 * i + 1] == p {
            return i;
        }
    }
    to
}

// The node that an end must have, if there is one: a code stands for its map entry, and a variable may have a node already.
#[tactic(auto, unfolding(crate::specs::Places::wanted_of, query::specs::Ask::wrong_pattern_end))]
fn node_wanted(map: &[u32], e: End, bindings: [u32; 8]) -> Option<u32>
    requires { wrong_pattern_end (length map.now) e ≡ false }
    ensures { result ≡ wanted_of map.now e bindings }
{
    match e {
        End::Var(v) if Code(bindings[v as usize]).is_absent() => None,
        End::Var(v) => Some(bindings[v as usize]),
        End::Code(c) => Some(map[c as usize]),
    }
}

// Whether the triple at place i has this subject and property.
#[tactic(auto, unfolding(crate::specs::Places::front, lists::specs::Flat::at))]
fn has_front(table: &[u32], i: usize, subject: u32, property: u32) -> bool
    requires { 3 * i + 2 < length table.now }
    ensures { result ≡ front subject property (at table.now i) }
{
    table[3 * i] == subject && table[3 * i + 1] == property
}

// In rising order: the first place from..to with this subject and property, or `to`.
fn first_of(table: &[u32], subject: u32, property: u32, from: usize, to: usize) -> usize
    requires { (from ≤ to) × (3 * to ≤ length table.now) × RisingPart (at table.now) from to }
    ensures { FirstOf (at table.now) subject property from to result }
{
    let key = Triple {
        subject,
        property,
        object: 0,
    };
    let i = lower_bound(table, from, to, key);
    if i < to && has_front(table, i, subject, property) {
        return i;
    }
    to
}

// The first place from..to whose triple has property p, or `to`, with what the scan counts for.
fn scanned(table: &[u32], p: u32, from: usize, to: usize) -> Reached
    requires { (from ≤ to) × (3 * to ≤ length table.now) }
    ensures { First (with_property (at table.now) p) from to result.place }
{
    let place = first_with(table, p, from, to);
    Reached {
        place,
        cost: place - from + 4,
    }
}

// In rising order: the place from..to of this triple, or `to`.
fn place_of(table: &[u32], t: Triple, from: usize, to: usize) -> usize
    requires { (from ≤ to) × (3 * to ≤ length table.now) × RisingPart (at table.now) from to }
    ensures { FirstSame (at table.now) t from to result }
{
    let i = lower_bound(table, from, to, t);
    if i < to && t == triple_at(table, i) {
        return i;
    }
    to
}

// The first place from..to whose triple has the pattern's property and may fit, or `to`, in a table in rising order: a subject that must
// be one node is searched for, and with it an object that must be one node.
fn first_in_order(
    table: &[u32],
    map: &[u32],
    p: Pattern,
    bindings: [u32; 8],
    from: usize,
    to: usize,
) -> Reached
    requires { (wrong_pattern_end (length map.now) p.subject ≡ false) × (wrong_pattern_end (length map.now) p.object ≡ false) × (from ≤ to) × (3 * to ≤ length table.now) × RisingPart (at table.now) from to }
    ensures { FirstFit (at table.now) map.now p bindings from to result.place }
{
    let property = p.property;
    let Some(subject) = node_wanted(map, p.subject, bindings) else {
        return scanned(table, property, from, to);
    };
    let place = match node_wanted(map, p.object, bindings) {
        None => first_of(table, subject, property, from, to),
        Some(object) => {
            let t = Triple {
                subject,
                property,
                object,
            };
            place_of(table, t, from, to)
        }
    };
    Reached { place, cost: 8 }
}

// The first place from..to whose triple has the pattern's property and may fit, or `to`.
pub fn first_fit(
    table: &[u32],
    map: &[u32],
    p: Pattern,
    bindings: [u32; 8],
    from: usize,
    to: usize,
    rising: bool,
) -> Reached
    requires { (wrong_pattern_end (length map.now) p.subject ≡ false) × (wrong_pattern_end (length map.now) p.object ≡ false) × (from ≤ to) × (3 * to ≤ length table.now) × InOrder table.now rising }
    ensures { FirstFit (at table.now) map.now p bindings from to result.place }
{
    if rising {
        return first_in_order(table, map, p, bindings, from, to);
    }
    scanned(table, p.property, from, to)
}
