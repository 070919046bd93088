// Removing a triple from an intake, with its two counts by value.
#![tactic(auto)]

ghost use Rattle.model.specs.Triples.{triple};
ghost use Rattle.model.specs.Outcomes.{replied};
ghost use Rattle.model.specs.Intake.{removing, Removes};
ghost use Rattle.intake_opening.specs.Opening.{at_entry, at_exit, state_in, SameLists};
ghost use Rattle.intake_calls.specs.Calls.{ReadyLists, Passing};

use intake_calls::{CalledCounts, call_refusal, with_counts};
use intake_cutting::cut;
use intake_insertion::stands_at;
use intake_opening::{Counts, Lists};
use lists::lower_bound;
use model::{Refusal, Reply, Triple, Vocabulary};

// A removal that no check refuses.
fn take_out(
    counts: Counts,
    words: Vocabulary,
    roster: &[u8],
    lists: &mut Lists,
    work: &mut [u32],
    t: Triple,
) -> CalledCounts
    requires { ReadyLists words roster.now lists.old work.old t }
    ensures passes { Passing words roster.now removing
        (state_in lists.old counts) work.old t (replied result.answer)
        (state_in lists.new result.counts) work.new }
    ensures lent { SameLists lists.old lists.new }
{
    let Counts { held, summarised } = counts;
    let triples = &mut *lists.triples;
    if triples.len() / 3 < held {
        return with_counts(Err(Refusal::Missing), held, summarised); // only where the record was altered by hand
    }
    let i = lower_bound(triples, 0, held, t);
    if stands_at(triples, held, i, t) {
        return cut(counts, words, roster, lists, work, i);
    }
    with_counts(Err(Refusal::Missing), held, summarised)
}

// Removes a triple from an intake with two counts, over plain lists.
pub fn remove_lists(
    held: usize,
    summarised: usize,
    words: Vocabulary,
    roster: &[u8],
    triples: &mut [u32],
    summary: &mut [u32],
    weights: &mut [u32],
    map: &mut [u32],
    work: &mut [u32],
    s: u32,
    p: u32,
    o: u32,
) -> CalledCounts
    ensures { Removes words roster.now
        (at_entry triples summary weights map held summarised) work.old (triple s p o) (replied result.answer)
        (at_exit triples summary weights map result.counts.held result.counts.summarised) work.new }
{
    let t = Triple {
        subject: s,
        property: p,
        object: o,
    };
    match call_refusal(words, roster, triples, summary, weights, map, work, t) {
        Err(r) => with_counts(Err(r), held, summarised),
        Ok(()) => {
            let mut lists = Lists {
                triples,
                summary,
                weights,
                map,
            };
            take_out(
                Counts { held, summarised },
                words,
                roster,
                &mut lists,
                work,
                t,
            )
        }
    }
}
