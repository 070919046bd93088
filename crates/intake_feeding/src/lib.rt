// Feeding a triple to an intake, with its two counts by value.
#![tactic(auto)]

ghost use Rattle.model.specs.Triples.{triple};
ghost use Rattle.model.specs.Outcomes.{replied};
ghost use Rattle.model.specs.Intake.{Fed};
ghost use Rattle.intake_opening.specs.Opening.{at_entry, at_exit};

use intake_calls::{CalledCounts, call_refusal, with_counts};
use intake_opening::{Counts, Lists};
use intake_taking::take_in;
use model::{Reply, Triple, Vocabulary};

// Feeds a triple to an intake with two counts, over plain lists.
pub fn feed_lists(
    held: usize,
    summarised: usize,
    words: Vocabulary,
    roster: &[u8],
    triples: &mut [u32],
    summary: &mut [u32],
    weights: &mut [u32],
    map: &mut [u32],
    work: &mut [u32],
    s: u32,
    p: u32,
    o: u32,
) -> CalledCounts
    ensures { Fed words roster.now
        (at_entry triples summary weights map held summarised) work.old (triple s p o) (replied result.answer)
        (at_exit triples summary weights map result.counts.held result.counts.summarised) work.new }
{
    let t = Triple {
        subject: s,
        property: p,
        object: o,
    };
    match call_refusal(words, roster, triples, summary, weights, map, work, t) {
        Err(r) => with_counts(Err(r), held, summarised),
        Ok(()) => {
            let mut lists = Lists {
                triples,
                summary,
                weights,
                map,
            };
            take_in(
                Counts { held, summarised },
                words,
                roster,
                &mut lists,
                work,
                t,
            )
        }
    }
}
