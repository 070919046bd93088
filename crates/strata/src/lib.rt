// The schema triples of a table closed by rounds, then one pass with each group of the other rules.
#![tactic(auto)]

ghost use Rattle.std.specs.Prelude.{◌*◌, ◌≤◌, length};
ghost use mathlib.Core.List.{Memᴰ as Mem};
ghost use Rattle.model.specs.Triples.{triples};
ghost use Rattle.builder.specs.Builder.{first};
ghost use Rattle.rule_premises.specs.Premises.{rule_count};
ghost use Rattle.strata.specs.Strata.{Closed, Swept, Stratified};
ghost use Rattle.schema_load.specs.declared.Share.TheVariants.{Schema, Other};
ghost use Rattle.schema_load.specs.Loading.{part, Added};

use builder::{Builder, Full};
use model::{RULE_COUNT, Vocabulary};
use rule_walk::round;
use schema_load::{Share, load};
use sorting::sort_distinct;
use std::ops::Range;

// The places of the rules that retype: rule 5.
const RETYPING: Range<usize> = 4..5;

// The places of the rules that type an end: 1 and 2.
const TYPING: Range<usize> = 0..2;

// The places of the rules that rename: rule 4.
const RENAMING: Range<usize> = 3..4;

// Rounds until one adds nothing.
fn close(words: Vocabulary, list: &mut [u32], filled: usize) -> Result<Builder, Full>
    requires { 3 * filled ≤ length list.old }
    ensures { Closed words (λ t. Mem t (first list.old filled)) list.old list.new result }
{
    let mut state = Builder::new(0, filled);
    while state.base < state.filled {
        let count = sort_distinct(list, 0, state.filled);
        state = round(words, list, count, 0..RULE_COUNT)?;
    }
    Ok(state)
}

// All that the rules derive from the table's schema triples, or the slots are too few.
pub fn derive_schema(words: Vocabulary, table: &[u32], list: &mut [u32]) -> Result<Builder, Full>
    ensures { Closed words (λ t. Mem t (part words Schema (triples table.now))) list.old list.new result }
{
    let loaded = load(words, table, list, 0, Share::Schema)?;
    close(words, list, loaded.filled)
}

// The table's other triples behind the first `filled`, or the slots are too few.
pub fn add_others(
    words: Vocabulary,
    table: &[u32],
    list: &mut [u32],
    filled: usize,
) -> Result<Builder, Full>
    requires { 3 * filled ≤ length list.old }
    ensures { Added words Other (triples table.now) list.old list.new filled result }
{
    let count = sort_distinct(list, 0, filled);
    load(words, table, list, count, Share::Other)
}

// One pass with the rules at these places of the table over the first `filled` triples.
fn pass(
    words: Vocabulary,
    list: &mut [u32],
    filled: usize,
    places: Range<usize>,
) -> Result<Builder, Full>
    requires { (3 * filled ≤ length list.old) × (places.end ≤ rule_count) }
    ensures { Swept words list.old list.new filled places.start places.end result }
{
    let count = sort_distinct(list, 0, filled);
    round(words, list, count, places)
}

// The rules that give no schema triple, each once: rule 5, then 1 and 2, then 4. Closed schema triples give with a triple of the table, in
// one step, all that they give in several; in this order no pass draws from what another gave.
pub fn draw_strata(words: Vocabulary, list: &mut [u32], filled: usize) -> Result<Builder, Full>
    requires { 3 * filled ≤ length list.old }
    ensures { Stratified words list.old list.new filled result }
{
    let retyped = pass(words, list, filled, RETYPING)?;
    let typed = pass(words, list, retyped.filled, TYPING)?;
    pass(words, list, typed.filled, RENAMING)
}
