// Nodes in the map and the work list: each a class of its own, linked at each side of the properties that it has.
// While a weak map is made, the map's entries of the nodes are a union-find. The work list has two entries for each property, a node
// seen as its subject and a node seen as its object, and one for each data node, which says that it has a data triple.
#![tactic(auto)]

ghost use Rattle.std.specs.Prelude.{◌≡◌, ◌<◌, ◌≤◌, length, set};
ghost use Rattle.node_links.specs.Linking.{slot_of, Openable, Opened};
ghost use Rattle.node_links.specs.Calls.{SlotLinkable, SlotLinked, EndLinkable, EndLinked};

use lists::{Code, triple_at, wide};
use model::{Side, Triple, Vocabulary};
use roster_checks::{links_at, side_end};
use union_find::union;

// The entry of a node becomes the node itself.
fn own_entry(list: &mut [u32], node: u32)
    requires { node < length list.old }
    ensures { list.new ≡ set list.old node node }
{
    let n = wide(node);
    list[n] = node;
}

// Every node becomes a class of its own.
pub fn open_nodes(table: &[u32], count: usize, map: &mut [u32])
    requires { Openable table.now count map.old }
    ensures { Opened table.now count (length map.old) map.new }
{
    for i in 0..count {
        let t = triple_at(table, i);
        own_entry(map, t.subject);
        own_entry(map, t.object);
    }
}

// The entry of a property in the work list: for the sources at its code, for the targets n behind it.
fn slot(n: usize, side: Side, property: u32) -> usize
    requires { n ≤ 65536 }
    ensures { result ≡ slot_of n side property }
{
    match side {
        Side::Source => wide(property),
        Side::Target => n + wide(property),
    }
}

// The first node of a slot is held there, and each later one joins its class.
fn link_node(map: &mut [u32], work: &mut [u32], slot: usize, node: u32)
    requires { SlotLinkable map.old work.old slot node }
    ensures { SlotLinked map.old work.old map.new work.new slot node }
{
    let first = work[slot];
    if Code(first).is_absent() {
        work[slot] = node;
        return;
    }
    union(map, wide(first), wide(node));
}

// Links the end of a triple at a side, if it is a data triple with an unmarked end there.
pub fn link_end(
    words: Vocabulary,
    roster: &[u8],
    side: Side,
    t: Triple,
    map: &mut [u32],
    work: &mut [u32],
)
    requires { EndLinkable words roster.now side t map.old work.old }
    ensures { EndLinked words roster.now side t map.old work.old map.new work.new }
{
    if !links_at(words, roster, side, t) {
        return;
    }
    let node = side_end(side, t);
    let k = slot(roster.len(), side, t.property);
    link_node(map, work, k, node);
    own_entry(work, node);
}
