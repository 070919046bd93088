// Taking in a triple that is not held.
#![tactic(auto)]

ghost use Rattle.std.specs.Prelude.{◌/◌, ◌<◌, ◌≤◌, length};
ghost use Rattle.model.specs.Outcomes.{replied};
ghost use Rattle.intake_opening.specs.Opening.{state_in, SameLists};
ghost use Rattle.intake_calls.specs.Calls.{ReadyLists};
ghost use Rattle.intake_adding.specs.Adding.{AddCall};

use intake_calls::{CalledCounts, with_counts};
use intake_insertion::{held_wrong, image_place, insert_at};
use intake_opening::{Counts, Lists};
use intake_weighing::{increment, renew};
use lists::clear;
use model::{Refusal, Reply, Triple, Vocabulary};

// Takes in a triple that changes a class or the summary, at its place i: summary, weights and map are made anew. Only an intake
// altered by hand holds wrong triples.
fn add_anew(
    counts: Counts,
    words: Vocabulary,
    roster: &[u8],
    lists: &mut Lists,
    work: &mut [u32],
    t: Triple,
    i: usize,
) -> CalledCounts
    requires { ReadyLists words roster.now lists.old work.old t
        × (i ≤ counts.held) × (counts.held < length lists.old.triples.now / 3) }
    ensures passes { AddCall words roster.now
        (state_in lists.old counts) work.old t i (replied result.answer)
        (state_in lists.new result.counts) work.new }
    ensures lent { SameLists lists.old lists.new }
{
    let Counts { held, summarised } = counts;
    let triples = &mut *lists.triples;
    if held_wrong(words, triples, held, roster) {
        return with_counts(Err(Refusal::Full), held, summarised);
    }
    insert_at(triples, held, i, t);
    let count = held + 1;
    let k = renew(
        words,
        triples,
        count,
        roster,
        lists.summary,
        lists.weights,
        lists.map,
        work,
    );
    with_counts(Ok(Reply::New(i)), count, k)
}

// Takes in a triple that is not held, at its place i. Where its image is known, summary and map stay and its line weighs one more.
pub fn add(
    counts: Counts,
    words: Vocabulary,
    roster: &[u8],
    lists: &mut Lists,
    work: &mut [u32],
    t: Triple,
    i: usize,
) -> CalledCounts
    requires { ReadyLists words roster.now lists.old work.old t
        × (i ≤ counts.held) × (counts.held < length lists.old.triples.now / 3) }
    ensures passes { AddCall words roster.now
        (state_in lists.old counts) work.old t i (replied result.answer)
        (state_in lists.new result.counts) work.new }
    ensures lent { SameLists lists.old lists.new }
{
    let Counts { held, summarised } = counts;
    let summary = &mut *lists.summary;
    let map = &mut *lists.map;
    let Some(j) = image_place(summary, summarised, map, t) else {
        return add_anew(counts, words, roster, lists, work, t, i);
    };
    insert_at(lists.triples, held, i, t);
    increment(lists.weights, j);
    clear(work, 0, work.len()); // as after a summary
    with_counts(Ok(Reply::New(i)), held + 1, summarised)
}
