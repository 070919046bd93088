// Summarise: the map of representatives, then the images of the triples, each once, in rising order.
#![tactic(auto)]

ghost use Rattle.std.specs.Prelude.{◌≡◌, ◌*◌, ◌≤◌, not, ◌||◌, eqb, length};
ghost use Rattle.model.specs.Outcomes.{wrong_work};
ghost use Rattle.model.specs.Partition.{label};
ghost use Rattle.model.specs.Classes.{map_of};
ghost use Rattle.model.specs.Summary.{moved};
ghost use Rattle.theory.specs.Tables.{Right, Below, AllBelow};
ghost use Rattle.lists.specs.Flat.{at};
ghost use Rattle.builder.specs.Builder.{first, CollectedFrom};
ghost use Rattle.summarise.specs.Condensed.{Imaged, Condensed, SummariseCall};

use builder::{Builder, Full, finish, offer};
use checks::work_wrong;
use lists::{clear, triple_at, wide};
use model::{Refusal, Triple, Vocabulary};
use table_checks::table_refusal;
use weak_map::weak_map;

// A triple with its ends replaced by their entries of the map.
pub fn image(map: &[u32], t: Triple) -> Triple
    requires { Below (length map.now) t }
    ensures { result ≡ moved (label map.now) t }
{
    Triple {
        subject: map[wide(t.subject)],
        property: t.property,
        object: map[wide(t.object)],
    }
}

// The images of the first `count` triples, each at least once, or the slots are too few.
fn images(table: &[u32], count: usize, map: &[u32], list: &mut [u32]) -> Result<Builder, Full>
    requires { (3 * count ≤ length table.now) × AllBelow (length map.now) (first table.now count) }
    ensures { CollectedFrom (λ i. moved (label map.now) (at table.now i)) count list.old list.new result }
{
    let mut state = Builder::new(0, 0);
    for i in 0..count {
        let t = triple_at(table, i);
        state = offer(list, state, image(map, t))?;
    }
    Ok(state)
}

// The images of the first `count` triples under a finished map, each once, in rising order. Without the slots for them the result
// and the map are zero afterwards.
pub fn condense_by(
    table: &[u32],
    count: usize,
    map: &mut [u32],
    res: &mut [u32],
) -> Result<usize, Refusal>
    requires { (3 * count ≤ length table.now) × AllBelow (length map.old) (first table.now count) }
    ensures { Imaged map.old (first table.now count) res.old result res.new map.new }
{
    match images(table, count, map, res) {
        Ok(state) => Ok(finish(res, state.filled)),
        Err(Full) => {
            clear(res, 0, res.len());
            clear(map, 0, map.len());
            Err(Refusal::Slots)
        }
    }
}

// Summarises the first `count` triples of a list, which pass the checks 1, 10, 2, 3, 4 with the words and the roster.
pub fn condense(
    words: Vocabulary,
    table: &[u32],
    count: usize,
    roster: &[u8],
    res: &mut [u32],
    map: &mut [u32],
    work: &mut [u32],
) -> Result<usize, Refusal>
    requires { (3 * count ≤ length table.now) × Right words roster.now (first table.now count) × (length map.old ≡ length roster.now) × (length work.old ≡ 2 * length roster.now) }
    ensures { Condensed (map_of words roster.now (first table.now count)) (first table.now count) res.old map.old work.old result res.new map.new work.new }
{
    weak_map(words, table, count, roster, map, work);
    condense_by(table, count, map, res)
}

// Whether the map has not n entries, or the work list not two for each.
pub fn lengths_wrong(n: usize, map: usize, work: usize) -> bool
    ensures { result ≡ (not (eqb map n) || wrong_work n work) }
{
    map != n || work_wrong(n, work)
}

// The summary of a table in rising order, the map of representatives, and the summary's size.
pub fn summarise(
    words: Vocabulary,
    table: &[u32],
    roster: &[u8],
    res: &mut [u32],
    map: &mut [u32],
    work: &mut [u32],
) -> Result<usize, Refusal>
    ensures { SummariseCall words table.now roster.now res.old map.old work.old result res.new map.new work.new }
{
    let lengths = lengths_wrong(roster.len(), map.len(), work.len());
    table_refusal(words, lengths, table, roster)?;
    condense(words, table, table.len() / 3, roster, res, map, work)
}
