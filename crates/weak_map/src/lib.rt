// The weak map of a table: each node's representative.
#![tactic(auto)]

ghost use Rattle.std.specs.Prelude.{◌≡◌, List, ◌*◌, ◌<◌, ◌≤◌, length};
ghost use Rattle.model.specs.declared.Triple.{Triple};
ghost use Rattle.model.specs.declared.Vocabulary.{Vocabulary};
ghost use Rattle.model.specs.Lists.{tabulate, zeros};
ghost use Rattle.model.specs.Classes.{map_of};
ghost use Rattle.theory.specs.Tables.{Right};
ghost use Rattle.lists.specs.Flat.{at};
ghost use Rattle.node_links.specs.Linking.{Started, AllSeen};
ghost use Rattle.node_links.specs.Calls.{bare, BareJoinable, BareJoined, Ready, Complete};

use lists::{Code, clear, empty, triple_at};
use model::{Side, Vocabulary};
use node_links::{link_end, open_nodes};
use union_find::{flatten, union};

// Links both ends of each triple.
fn link_table(
    words: Vocabulary,
    table: &[u32],
    count: usize,
    roster: &[u8],
    map: &mut [u32],
    work: &mut [u32],
)
    requires { Started words table.now count roster.now map.old work.old }
    ensures { AllSeen words roster.now (tabulate (at table.now) 0 count) map.new work.new }
{
    for i in 0..count {
        let t = triple_at(table, i);
        link_end(words, roster, Side::Source, t, map, work);
        link_end(words, roster, Side::Target, t, map, work);
    }
}

// Whether a code is a data node without a data triple.
#[tactic(auto, unfolding(node_links::specs::Calls::bare, model::specs::Roster::unmarked))]
fn is_bare(roster: &[u8], map: &[u32], work: &[u32], i: usize) -> bool
    requires { (i < length roster.now) × (i < length map.now) × (i < length work.now) }
    ensures { result ≡ bare roster.now map.now work.now i }
{
    !Code(map[i]).is_absent() && roster[i] == 0 && Code(work[i]).is_absent()
}

// A data node without a data triple joins the class of the first such node. The result is the first one so far.
fn join_bare_at(
    roster: &[u8],
    map: &mut [u32],
    work: &[u32],
    first: Option<usize>,
    i: usize,
) -> Option<usize>
    requires { BareJoinable roster.now map.old work.now first i }
    ensures { BareJoined roster.now map.old work.now first i result map.new }
{
    if !is_bare(roster, map, work, i) {
        return first;
    }
    match first {
        None => Some(i),
        Some(node) => {
            union(map, node, i);
            first
        }
    }
}

// The data nodes without data triples become one class.
fn join_bare(roster: &[u8], map: &mut [u32], work: &[u32])
    requires { Ready roster.now map.old work.now }
    ensures { (v : Vocabulary) (ts : List Triple) → AllSeen v roster.now ts map.old work.now → Complete v roster.now ts map.new }
{
    let mut first = None;
    for i in 0..map.len() {
        first = join_bare_at(roster, map, work, first, i);
    }
}

// The map of the first `count` triples of a table. The work list is zero afterwards.
pub fn weak_map(
    words: Vocabulary,
    table: &[u32],
    count: usize,
    roster: &[u8],
    map: &mut [u32],
    work: &mut [u32],
)
    requires { (3 * count ≤ length table.now) × Right words roster.now (tabulate (at table.now) 0 count) × (length map.old ≡ length roster.now) × (length work.old ≡ 2 * length roster.now) }
    ensures { (map.new ≡ map_of words roster.now (tabulate (at table.now) 0 count)) × (work.new ≡ zeros (length work.old)) }
{
    empty(map);
    empty(work);
    open_nodes(table, count, map);
    link_table(words, table, count, roster, map, work);
    join_bare(roster, map, work);
    flatten(map);
    clear(work, 0, work.len());
}
