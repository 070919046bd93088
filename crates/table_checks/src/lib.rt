// The checks 1, 10, 2, 3, 4 that the calls with a table and a roster share.
#![tactic(auto)]

ghost use Rattle.std.specs.Prelude.{◌≡◌};
ghost use Rattle.model.specs.Outcomes.{outcome_of, checked};
ghost use Rattle.model.specs.Calls.{table_checks};

use checks::{codes_wrong, length_wrong, size_wrong, words_wrong};
use model::{Refusal, Vocabulary};
use roster_checks::{roster_wrong, uncovered};

// The refusal of the first check that fails. `lengths` says that another lent list has a wrong length. Each check runs over its whole
// input before the next.
pub fn table_refusal(
    words: Vocabulary,
    lengths: bool,
    table: &[u32],
    roster: &[u8],
) -> Result<(), Refusal>
    ensures { outcome_of result ≡ checked (table_checks words lengths table.now roster.now) tt }
{
    let n = roster.len();
    if size_wrong(n) {
        return Err(Refusal::Length);
    }
    if length_wrong(table.len()) {
        return Err(Refusal::Length);
    }
    if lengths {
        return Err(Refusal::Length);
    }
    if words_wrong(words, n) {
        return Err(Refusal::Words);
    }
    if roster_wrong(words, roster) {
        return Err(Refusal::Roster);
    }
    if codes_wrong(words, table, n) {
        return Err(Refusal::Code);
    }
    if uncovered(words, table, roster) {
        return Err(Refusal::Cover);
    }
    Ok(())
}
