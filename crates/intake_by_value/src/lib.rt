// Opening, feeding and removing with the record of counts by value, for the test programs: through these they run `intake::open`,
// `intake::feed` and `intake::remove`, the form that the scope paper names.
#![tactic(auto)]

ghost use Rattle.model.specs.Triples.{triple};
ghost use Rattle.model.specs.Outcomes.{outcome_of, replied};
ghost use Rattle.model.specs.Intake.{Fed, Removes};
ghost use Rattle.intake_opening.specs.Opening.{at_entry, at_exit, Opens};

use intake_calls::CalledCounts;
use intake_opening::{Counts, OpenedCounts};
use model::Vocabulary;

// Opens an intake whose record is `counts`.
pub fn open_by_value(
    counts: Counts,
    words: Vocabulary,
    roster: &[u8],
    triples: &mut [u32],
    summary: &mut [u32],
    weights: &mut [u32],
    map: &mut [u32],
) -> OpenedCounts
    ensures { Opens words roster.now
        (at_entry triples summary weights map counts.held counts.summarised) (outcome_of result.answer)
        (at_exit triples summary weights map result.counts.held result.counts.summarised) }
{
    let mut record = counts;
    let answer = intake::open(&mut record, words, roster, triples, summary, weights, map);
    OpenedCounts {
        answer,
        counts: record,
    }
}

// Feeds a triple to an intake whose record is `counts`.
pub fn feed_by_value(
    counts: Counts,
    words: Vocabulary,
    roster: &[u8],
    triples: &mut [u32],
    summary: &mut [u32],
    weights: &mut [u32],
    map: &mut [u32],
    work: &mut [u32],
    s: u32,
    p: u32,
    o: u32,
) -> CalledCounts
    ensures { Fed words roster.now
        (at_entry triples summary weights map counts.held counts.summarised) work.old (triple s p o) (replied result.answer)
        (at_exit triples summary weights map result.counts.held result.counts.summarised) work.new }
{
    let mut record = counts;
    let answer = intake::feed(
        &mut record,
        words,
        roster,
        triples,
        summary,
        weights,
        map,
        work,
        s,
        p,
        o,
    );
    CalledCounts {
        answer,
        counts: record,
    }
}

// Removes a triple from an intake whose record is `counts`.
pub fn remove_by_value(
    counts: Counts,
    words: Vocabulary,
    roster: &[u8],
    triples: &mut [u32],
    summary: &mut [u32],
    weights: &mut [u32],
    map: &mut [u32],
    work: &mut [u32],
    s: u32,
    p: u32,
    o: u32,
) -> CalledCounts
    ensures { Removes words roster.now
        (at_entry triples summary weights map counts.held counts.summarised) work.old (triple s p o) (replied result.answer)
        (at_exit triples summary weights map result.counts.held result.counts.summarised) work.new }
{
    let mut record = counts;
    let answer = intake::remove(
        &mut record,
        words,
        roster,
        triples,
        summary,
        weights,
        map,
        work,
        s,
        p,
        o,
    );
    CalledCounts {
        answer,
        counts: record,
    }
}
