// The intake: opening, feeding and removing over lent lists and a lent record of two counts.
#![tactic(auto)]

ghost use Rattle.model.specs.Triples.{triple};
ghost use Rattle.model.specs.Outcomes.{outcome_of, replied};
ghost use Rattle.model.specs.Intake.{Fed, Removes};
ghost use Rattle.intake_opening.specs.Opening.{at_entry, at_exit, Opens};

use intake_feeding::feed_lists;
use intake_opening::{Counts, open_counts};
use intake_removing::remove_lists;
use model::{Refusal, Reply, Vocabulary};

// Opens an intake: it holds nothing.
pub fn open(
    counts: &mut Counts,
    words: Vocabulary,
    roster: &[u8],
    triples: &mut [u32],
    summary: &mut [u32],
    weights: &mut [u32],
    map: &mut [u32],
) -> Result<(), Refusal>
    ensures { Opens words roster.now
        (at_entry triples summary weights map counts.old.held counts.old.summarised) (outcome_of result)
        (at_exit triples summary weights map counts.new.held counts.new.summarised) }
{
    let opened = open_counts(
        counts.held,
        counts.summarised,
        words,
        roster,
        triples,
        summary,
        weights,
        map,
    );
    counts.held = opened.counts.held;
    counts.summarised = opened.counts.summarised;
    opened.answer
}

// Feeds a triple to an intake: whether it is new, and its place among the triples held before.
pub fn feed(
    counts: &mut Counts,
    words: Vocabulary,
    roster: &[u8],
    triples: &mut [u32],
    summary: &mut [u32],
    weights: &mut [u32],
    map: &mut [u32],
    work: &mut [u32],
    s: u32,
    p: u32,
    o: u32,
) -> Result<Reply, Refusal>
    ensures { Fed words roster.now
        (at_entry triples summary weights map counts.old.held counts.old.summarised) work.old (triple s p o) (replied result)
        (at_exit triples summary weights map counts.new.held counts.new.summarised) work.new }
{
    let fed = feed_lists(
        counts.held,
        counts.summarised,
        words,
        roster,
        triples,
        summary,
        weights,
        map,
        work,
        s,
        p,
        o,
    );
    counts.held = fed.counts.held;
    counts.summarised = fed.counts.summarised;
    fed.answer
}

// Removes a triple from an intake: its place among the triples held before.
pub fn remove(
    counts: &mut Counts,
    words: Vocabulary,
    roster: &[u8],
    triples: &mut [u32],
    summary: &mut [u32],
    weights: &mut [u32],
    map: &mut [u32],
    work: &mut [u32],
    s: u32,
    p: u32,
    o: u32,
) -> Result<Reply, Refusal>
    ensures { Removes words roster.now
        (at_entry triples summary weights map counts.old.held counts.old.summarised) work.old (triple s p o) (replied result)
        (at_exit triples summary weights map counts.new.held counts.new.summarised) work.new }
{
    let removed = remove_lists(
        counts.held,
        counts.summarised,
        words,
        roster,
        triples,
        summary,
        weights,
        map,
        work,
        s,
        p,
        o,
    );
    counts.held = removed.counts.held;
    counts.summarised = removed.counts.summarised;
    removed.answer
}
