// The clique of each data node at a side, as one number: the smallest property of the clique, or the code of type where it has none.
// The groups of the properties leave a property of each node in the node's entry; its root is the smallest of the clique.
#![tactic(auto)]

ghost use Rattle.std.specs.Prelude.{Bool, List, ◌≡◌, ℕ, ◌+◌, ◌<◌, length};
ghost use Rattle.model.specs.Codes.{absent};
ghost use Rattle.model.specs.Triples.{triples};
ghost use Rattle.theory.specs.Tables.{Right};
ghost use Rattle.node_cliques.specs.Labels.{is_label, node_cliques};
ghost use Rattle.node_cliques.specs.Labelling.{EntriesFilled, FirstProperties, NodesLabelled, Labelling, SomeLabelling, SomeProperties};

use lists::{Code, narrow, wide};
use model::{Side, Vocabulary};
use property_groups::group_side;
use union_find::find;

// An unmarked code gets its label: the root of its property, or `none` if it has no property.
fn label_node(none: u32, roster: &[u8], list: &mut [u32], i: usize)
    requires { SomeLabelling roster.now none list.old i × (i < length roster.now) }
    ensures { (A : ℕ → Bool) (before : List ℕ) → Labelling A roster.now none before list.old i → Labelling A roster.now none before list.new (i + 1) }
{
    if roster[i] != 0 {
        return;
    }
    let first = list[i];
    if Code(first).is_absent() {
        list[i] = none;
        return;
    }
    let root = find(list, wide(first));
    list[i] = narrow(root);
}

// All unmarked codes get their labels.
fn label_nodes(none: u32, roster: &[u8], list: &mut [u32])
    requires { SomeProperties roster.now list.old }
    ensures { (A : ℕ → Bool) → FirstProperties A roster.now list.old → NodesLabelled A roster.now none list.old list.new (length roster.now) }
{
    for i in 0..roster.len() {
        label_node(none, roster, list, i);
    }
}

// Whether a code can be a label: a marked code, or the code of type.
#[tactic(auto, unfolding(crate::specs::Labels::is_label, model::specs::Roster::unmarked))]
pub fn is_label(words: Vocabulary, roster: &[u8], i: usize) -> bool
    requires { i < length roster.now }
    ensures { result ≡ is_label words roster.now i }
{
    roster[i] != 0 || i == wide(words.instance)
}

// Makes the entries of the labels absent.
fn empty_labels(words: Vocabulary, roster: &[u8], list: &mut [u32])
    requires { length list.old ≡ length roster.now }
    ensures { EntriesFilled (is_label words roster.now) absent list.old list.new (length list.old) }
{
    for i in 0..roster.len() {
        if is_label(words, roster, i) {
            list[i] = Code::ABSENT;
        }
    }
}

// The cliques of the data nodes at a side; the entries of the labels are absent.
pub fn node_cliques(words: Vocabulary, table: &[u32], roster: &[u8], side: Side, list: &mut [u32])
    requires { Right words roster.now (triples table.now) × (length list.old ≡ length roster.now) }
    ensures { list.new ≡ node_cliques words roster.now side (triples table.now) }
{
    group_side(words, table, roster, side, list);
    label_nodes(words.instance, roster, list);
    empty_labels(words, roster, list);
}
