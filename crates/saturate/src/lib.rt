// Saturation over the constant rule table: the schema triples closed, the others added, then one pass with each of the other rules.
#![tactic(auto)]

ghost use mathlib.Core.List.{Memᴰ as Mem};
ghost use Rattle.std.specs.Prelude.{◌≡◌};
ghost use Rattle.model.specs.Triples.{triples};
ghost use Rattle.model.specs.Outcomes.{outcome_of};
ghost use Rattle.model.specs.Calls.{saturate_outcome, saturate_leaves};
ghost use Rattle.strata.specs.Strata.{Closed, FreeEnds};

use builder::{Builder, Full, finish};
use lists::clear;
use model::{Refusal, Vocabulary};
use strata::{add_others, derive_schema, draw_strata};
use table_checks::table_refusal;

// All that the rules derive from the table, in any order, or the slots are too few. The schema triples are closed first: no other triple
// gives one.
fn derive(words: Vocabulary, table: &[u32], list: &mut [u32]) -> Result<Builder, Full>
    requires { FreeEnds words (triples table.now) }
    ensures { Closed words (λ t. Mem t (triples table.now)) list.old list.new result }
{
    let schema = derive_schema(words, table, list)?;
    let loaded = add_others(words, table, list, schema.filled)?;
    draw_strata(words, list, loaded.filled)
}

// Saturates a table into the result: 01's "saturate".
pub fn saturate(
    words: Vocabulary,
    table: &[u32],
    roster: &[u8],
    res: &mut [u32],
) -> Result<usize, Refusal>
    ensures { (outcome_of result ≡ saturate_outcome words table.now roster.now res.old) × (res.new ≡ saturate_leaves words table.now roster.now res.old) }
{
    table_refusal(words, false, table, roster)?;
    match derive(words, table, res) {
        Ok(state) => Ok(finish(res, state.filled)),
        Err(Full) => {
            clear(res, 0, res.len());
            Err(Refusal::Slots)
        }
    }
}
