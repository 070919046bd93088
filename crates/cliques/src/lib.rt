// Cliques: per code taken as a property, the smallest property of its source clique and of its target clique, or absent.
#![tactic(auto)]

ghost use Rattle.std.specs.Prelude.{◌≡◌, not, ◌||◌, eqb, length};
ghost use Rattle.model.specs.Triples.{triples};
ghost use Rattle.model.specs.Cliques.{cliques};
ghost use Rattle.theory.specs.Tables.{Right};
ghost use Rattle.property_groups.specs.Grouping.{NodesCleared};
ghost use Rattle.cliques.specs.Calls.{CliquesCall};

use lists::Code;
use model::{Refusal, Side, Vocabulary};
use property_groups::group_side;
use table_checks::table_refusal;
use union_find::flatten;

// Makes the entries of the unmarked codes absent.
fn clear_nodes(roster: &[u8], list: &mut [u32])
    requires { length list.old ≡ length roster.now }
    ensures { NodesCleared roster.now list.old list.new (length list.old) }
{
    for i in 0..roster.len() {
        if roster[i] == 0 {
            list[i] = Code::ABSENT;
        }
    }
}

// The clique list of a side.
fn clique_side(words: Vocabulary, table: &[u32], roster: &[u8], side: Side, list: &mut [u32])
    requires { Right words roster.now (triples table.now) × (length list.old ≡ length roster.now) }
    ensures { list.new ≡ cliques words roster.now side (triples table.now) }
{
    group_side(words, table, roster, side, list);
    clear_nodes(roster, list);
    flatten(list);
}

// Whether one of two lengths is not n.
fn lengths_wrong(n: usize, sources: usize, targets: usize) -> bool
    ensures { result ≡ (not (eqb sources n) || not (eqb targets n)) }
{
    sources != n || targets != n
}

// The smallest property of each property's clique, or absent: by common subjects into `sources`, by common objects into `targets`.
pub fn cliques(
    words: Vocabulary,
    table: &[u32],
    roster: &[u8],
    sources: &mut [u32],
    targets: &mut [u32],
) -> Result<(), Refusal>
    ensures { CliquesCall words table.now roster.now sources.old targets.old result sources.new targets.new }
{
    let lengths = lengths_wrong(roster.len(), sources.len(), targets.len());
    table_refusal(words, lengths, table, roster)?;
    clique_side(words, table, roster, Side::Source, sources);
    clique_side(words, table, roster, Side::Target, targets);
    Ok(())
}
