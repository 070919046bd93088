// Summarise strongly: the strong map of representatives, then the images of the triples as in summarise.
#![tactic(auto)]

ghost use Rattle.std.specs.Prelude.{◌*◌, ◌/◌, ◌≡◌, length};
ghost use Rattle.model.specs.Classes.{strong_map_of};
ghost use Rattle.theory.specs.Tables.{Right};
ghost use Rattle.builder.specs.Builder.{first};
ghost use Rattle.summarise.specs.Condensed.{Condensed, SummariseStrongCall};

use model::{Refusal, Vocabulary};
use strong_map::strong_map;
use summarise::{condense_by, lengths_wrong};
use table_checks::table_refusal;

// Summarises a table that passes the checks 1, 10, 2, 3, 4 with the words and the roster.
fn condense_strong(
    words: Vocabulary,
    table: &[u32],
    roster: &[u8],
    res: &mut [u32],
    map: &mut [u32],
    work: &mut [u32],
) -> Result<usize, Refusal>
    requires { Right words roster.now (first table.now (length table.now / 3)) × (length map.old ≡ length roster.now) × (length work.old ≡ 2 * length roster.now) }
    ensures { Condensed (strong_map_of words roster.now (first table.now (length table.now / 3))) (first table.now (length table.now / 3)) res.old map.old work.old result res.new map.new work.new }
{
    strong_map(words, table, roster, map, work);
    condense_by(table, table.len() / 3, map, res)
}

// The strong summary of a table in rising order, the map of representatives, and the summary's size.
pub fn summarise_strong(
    words: Vocabulary,
    table: &[u32],
    roster: &[u8],
    res: &mut [u32],
    map: &mut [u32],
    work: &mut [u32],
) -> Result<usize, Refusal>
    ensures { SummariseStrongCall words table.now roster.now res.old map.old work.old result res.new map.new work.new }
{
    let lengths = lengths_wrong(roster.len(), map.len(), work.len());
    table_refusal(words, lengths, table, roster)?;
    condense_strong(words, table, roster, res, map, work)
}
