// Ask: the checks, then the search.
#![tactic(auto)]

ghost use Rattle.std.specs.Prelude.{◌≡◌};
ghost use Rattle.query.specs.Ask.{asked, ask_outcome};
ghost use Rattle.query_places.specs.Places.{InOrder};

use lists::rises;
use model::{Refusal, Vocabulary};
use query::{Asked, Query};
use query_parts::{query_retired, query_wrong};
use query_settling::some_choice;

// Whether the table is known to be in rising order. One pattern looks at each triple once, so then it is not asked.
fn known_rising(table: &[u32], count: u32) -> bool
    ensures { InOrder table.now result }
{
    1 < count && rises(table)
}

// Whether some choice of nodes for the variables puts every counted pattern in the table.
#[tactic(auto, unfolding(query::specs::Ask::ask_outcome, query::specs::Ask::ask_checks, query::specs::Ask::says_maybe, model::specs::Outcomes::decided, model::specs::Outcomes::outcome_by, model::specs::Outcomes::refusal_number))]
pub fn ask(words: Vocabulary, table: &[u32], map: &[u32], q: Query) -> Result<Asked, Refusal>
    ensures { asked result ≡ ask_outcome words table.now map.now q }
{
    if checks::size_wrong(map.len()) {
        return Err(Refusal::Length);
    }
    if checks::length_wrong(table.len()) {
        return Err(Refusal::Length);
    }
    if checks::words_wrong(words, map.len()) {
        return Err(Refusal::Words);
    }
    if checks::codes_wrong(words, table, map.len()) {
        return Err(Refusal::Code);
    }
    if query_wrong(q, map.len()) {
        return Err(Refusal::Query);
    }
    if query_retired(words, q) {
        return Err(Refusal::Retired);
    }
    let rising = known_rising(table, q.count);
    if some_choice(table, map, q, rising) {
        return Ok(Asked::Maybe);
    }
    Ok(Asked::None)
}
