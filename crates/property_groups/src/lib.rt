// The properties of a side in groups, by the nodes that have them: a union-find in the clique list.
// While the triples are gone through, the entries of the marked codes are a union-find over the properties, and the entry of an
// unmarked code is the first property seen at that node.
#![tactic(auto)]

ghost use Rattle.std.specs.Prelude.{◌≡◌, ◌+◌, ◌/◌, ◌<◌, length};
ghost use Rattle.model.specs.Triples.{triples};
ghost use Rattle.theory.specs.Tables.{Right};
ghost use Rattle.property_groups.specs.Grouping.{Grouped, group_opened, Linkable, NodeLinked};

use lists::{Code, empty, triple_at, wide};
use model::{Side, Vocabulary};
use roster_checks::{links_at, side_end};
use union_find::union;

// A property that is seen for the first time becomes a group of its own.
#[tactic(auto, unfolding(crate::specs::Grouping::group_opened))]
fn open_property(list: &mut [u32], property: u32)
    requires { property < length list.old }
    ensures { list.new ≡ group_opened list.old property }
{
    let p = wide(property);
    if Code(list[p]).is_absent() {
        list[p] = property;
    }
}

// The first property of a node is held in the node's entry; each later one joins that property's group.
fn link_node(list: &mut [u32], node: u32, property: u32)
    requires { Linkable list.old node property }
    ensures { NodeLinked list.old list.new node property }
{
    let n = wide(node);
    let first = list[n];
    if Code(first).is_absent() {
        list[n] = property;
        return;
    }
    union(list, wide(first), wide(property));
}

// Adds the triple at place i of the table.
fn link_at(words: Vocabulary, table: &[u32], roster: &[u8], side: Side, list: &mut [u32], i: usize)
    requires { Right words roster.now (triples table.now) × (i < length table.now / 3) × Grouped words table.now roster.now side i list.old }
    ensures { Grouped words table.now roster.now side (i + 1) list.new }
{
    let t = triple_at(table, i);
    if !links_at(words, roster, side, t) {
        return;
    }
    open_property(list, t.property);
    link_node(list, side_end(side, t), t.property);
}

// Adds each triple of the table.
fn link_table(words: Vocabulary, table: &[u32], roster: &[u8], side: Side, list: &mut [u32])
    requires { Right words roster.now (triples table.now) × Grouped words table.now roster.now side 0 list.old }
    ensures { Grouped words table.now roster.now side (length table.now / 3) list.new }
{
    for i in 0..table.len() / 3 {
        link_at(words, table, roster, side, list, i);
    }
}

// Groups the properties that share a node at a side; the entry of an unmarked code is the first property seen at that node.
pub fn group_side(words: Vocabulary, table: &[u32], roster: &[u8], side: Side, list: &mut [u32])
    requires { Right words roster.now (triples table.now) × (length list.old ≡ length roster.now) }
    ensures { Grouped words table.now roster.now side (length table.now / 3) list.new }
{
    empty(list);
    link_table(words, table, roster, side, list);
}
