// A feed that no check refuses: the triple's place, whether it is held, and taking it in.
#![tactic(auto)]

ghost use Rattle.model.specs.Outcomes.{replied};
ghost use Rattle.intake_opening.specs.Opening.{state_in, SameLists};
ghost use Rattle.model.specs.Intake.{feeding};
ghost use Rattle.intake_calls.specs.Calls.{ReadyLists, Passing};

use intake_adding::add;
use intake_calls::{CalledCounts, with_counts};
use intake_insertion::stands_at;
use intake_opening::{Counts, Lists};
use lists::{clear, lower_bound};
use model::{Refusal, Reply, Triple, Vocabulary};

// A feed that no check refuses.
pub fn take_in(
    counts: Counts,
    words: Vocabulary,
    roster: &[u8],
    lists: &mut Lists,
    work: &mut [u32],
    t: Triple,
) -> CalledCounts
    requires { ReadyLists words roster.now lists.old work.old t }
    ensures passes { Passing words roster.now feeding
        (state_in lists.old counts) work.old t (replied result.answer)
        (state_in lists.new result.counts) work.new }
    ensures lent { SameLists lists.old lists.new }
{
    let Counts { held, summarised } = counts;
    let triples = &mut *lists.triples;
    let slots = triples.len() / 3;
    if slots < held {
        return with_counts(Err(Refusal::Full), held, summarised); // only where the record was altered by hand
    }
    let i = lower_bound(triples, 0, held, t);
    if stands_at(triples, held, i, t) {
        clear(work, 0, work.len());
        return with_counts(Ok(Reply::NotNew(i)), held, summarised);
    }
    if held < slots {
        return add(counts, words, roster, lists, work, t, i);
    }
    with_counts(Err(Refusal::Full), held, summarised)
}
