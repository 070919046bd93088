// The strong map of a table: data nodes with the same source clique and the same target clique have one representative.
// The data nodes with one source clique are threaded through the map in rising order. Each thread is then walked: the first node with a
// target clique leaves its stamp there and represents those after it. The work list holds the nodes' cliques, the threads' first nodes and the
// stamps.
#![tactic(auto)]

ghost use Rattle.std.specs.Prelude.{◌≡◌, ◌++◌, ◌+◌, ◌*◌, ◌<◌, length};
ghost use Rattle.model.specs.Lists.{zeros};
ghost use Rattle.model.specs.Triples.{triples};
ghost use Rattle.model.specs.declared.Side.TheVariants.{Source as source, Target as target};
ghost use Rattle.model.specs.Classes.{strong_map_of};
ghost use Rattle.theory.specs.Tables.{Right};
ghost use Rattle.node_cliques.specs.Labels.{node_cliques};
ghost use Rattle.thread_settling.specs.Threads.{Groups, Threaded};
ghost use Rattle.thread_settling.specs.Calls.{data_node, Threadable, NodeThreaded, Labelled, SomeLabelled};

use lists::{Code, clear, empty, narrow, wide};
use model::{Side, Vocabulary};
use node_cliques::node_cliques;
use node_links::open_nodes;
use thread_settling::settle_labels;

// Whether a code is a data node, where the map's entry of each node is the node itself.
#[tactic(auto, unfolding(thread_settling::specs::Calls::data_node, model::specs::Roster::unmarked))]
fn is_data_node(roster: &[u8], map: &[u32], i: usize) -> bool
    requires { (i < length roster.now) × (i < length map.now) }
    ensures { result ≡ data_node roster.now map.now i }
{
    !Code(map[i]).is_absent() && roster[i] == 0
}

// A data node becomes the first of its thread.
fn thread_node(roster: &[u8], map: &mut [u32], work: &mut [u32], i: usize)
    requires { Threadable roster.now map.old work.old i }
    ensures { NodeThreaded roster.now map.old work.old map.new work.new i }
{
    if !is_data_node(roster, map, i) {
        return;
    }
    let a = wide(work[i]);
    map[i] = work[a];
    work[a] = narrow(i);
}

// Threads all data nodes, the highest first.
fn thread_nodes(roster: &[u8], map: &mut [u32], work: &mut [u32])
    requires { SomeLabelled roster.now map.old work.old }
    ensures { (g : Groups) → Labelled g roster.now map.old work.old → Threaded g 0 map.old map.new work.old work.new }
{
    for i in (0..map.len()).rev() {
        thread_node(roster, map, work, i);
    }
}

// The cliques of the data nodes at both sides, one behind the other.
fn both_cliques(words: Vocabulary, table: &[u32], roster: &[u8], work: &mut [u32])
    requires { Right words roster.now (triples table.now) × (length work.old ≡ 2 * length roster.now) }
    ensures { work.new ≡ node_cliques words roster.now source (triples table.now) ++ node_cliques words roster.now target (triples table.now) }
{
    let n = roster.len();
    node_cliques(words, table, roster, Side::Source, &mut work[0..n]);
    node_cliques(words, table, roster, Side::Target, &mut work[n..2 * n]);
}

// The strong map of a table. The work list is zero afterwards.
pub fn strong_map(
    words: Vocabulary,
    table: &[u32],
    roster: &[u8],
    map: &mut [u32],
    work: &mut [u32],
)
    requires { Right words roster.now (triples table.now) × (length map.old ≡ length roster.now) × (length work.old ≡ 2 * length roster.now) }
    ensures { (map.new ≡ strong_map_of words roster.now (triples table.now)) × (work.new ≡ zeros (length work.old)) }
{
    both_cliques(words, table, roster, work);
    empty(map);
    open_nodes(table, table.len() / 3, map);
    thread_nodes(roster, map, work);
    settle_labels(words, roster, map, work);
    clear(work, 0, work.len());
}
