// An intake of one engine over lent lists: opened, fed and removed from, and everything that each call leaves folded into a digest.
ghost use Rattle.std.specs.Prelude.{◌≤◌};

use super::inputs::{Call, Case, Input, MOST_CALLS};
use comparison::answers::Answer;
use comparison::engines::junk;
use comparison_report::digest::{Engine, Run, Seen, fold_list, fold_place};
use comparison_report::report;
use comparison_report::report::{COLUMNS, YES, show_answer, show_list};
use intake_calls::CalledCounts;
use intake_opening::{Counts, OpenedCounts};
use model::Vocabulary;
use naive_intake::{Lists, Reply, ends_kept};
use naive_lists::Refusal;
use random_sites::words::plain_words;
use std::io;

// What one call answers: a refusal's number, or 0 and a count, 1 for new and 2 for removed; the place, which is 0 for an opening; and the
// record's two counts.
#[derive(Clone, Copy)]
struct Step {
    refused: u32,
    count: usize,
    place: usize,
    held: usize,
    summarised: usize,
}

// Of a list of weights: the sum, and a number that has the last twelve as its digits; in a small case none is over 9.
#[derive(Clone, Copy)]
pub struct Weighed {
    pub sum: u64,
    pub digits: u64,
}

// The last call's answer with the digest of all calls so far, and its place; what the last weights and the last map were; the answer of the
// opening; the record's two counts; how many feeds and removals had each answer, and the last one's call and column there: a refusal's
// number, 0 or 15.
#[derive(Clone, Copy)]
pub struct State {
    pub seen: Seen,
    pub place: usize,
    pub weighed: Weighed,
    pub map_digits: u64,
    pub opened: u32,
    pub counts: Counts,
    pub feeds: [u64; COLUMNS],
    pub removals: [u64; COLUMNS],
    pub call: report::Call,
    pub column: u32,
}

fn engine_opened(left: OpenedCounts) -> Step {
    let answer = Answer::from(left.answer);
    Step {
        refused: answer.refused,
        count: 0,
        place: 0,
        held: left.counts.held,
        summarised: left.counts.summarised,
    }
}

// An accepted opening makes both counts zero, a refused one leaves them.
fn plain_opened(answer: Result<naive_intake::Counts, Refusal>) -> Step {
    let (refused, counts) = match answer {
        Ok(counts) => (0, counts),
        Err(refusal) => {
            let counts = naive_intake::Counts {
                held: 70,
                summarised: 71,
            };
            (u32::from(refusal), counts)
        }
    };
    Step {
        refused,
        count: 0,
        place: 0,
        held: counts.held,
        summarised: counts.summarised,
    }
}

fn open(
    engine: Engine,
    words: Vocabulary,
    roster: &[u8],
    triples: &mut [u32],
    summary: &mut [u32],
    weights: &mut [u32],
    map: &mut [u32],
) -> Step {
    if engine == Engine::Plain {
        let lists = Lists {
            triples,
            summary,
            weights,
            map,
        };
        return plain_opened(lists.open(plain_words(words), roster));
    }
    let counts = Counts {
        held: 70,
        summarised: 71,
    };
    engine_opened(intake_by_value::open_by_value(
        counts, words, roster, triples, summary, weights, map,
    ))
}

fn engine_called(left: CalledCounts) -> Step {
    let answer = Answer::from(left.answer);
    Step {
        refused: answer.refused,
        count: answer.count,
        place: answer.place,
        held: left.counts.held,
        summarised: left.counts.summarised,
    }
}

fn plain_called(answer: Result<Reply, Refusal>, counts: naive_intake::Counts) -> Step {
    let (refused, count, place) = match answer {
        Ok(Reply::New(place)) => (0, 1, place),
        Ok(Reply::NotNew(place)) => (0, 0, place),
        Ok(Reply::Removed(place)) => (0, 2, place),
        Err(refusal) => (u32::from(refusal), 0, 0),
    };
    Step {
        refused,
        count,
        place,
        held: counts.held,
        summarised: counts.summarised,
    }
}

fn plain_counts(counts: Counts) -> naive_intake::Counts {
    naive_intake::Counts {
        held: counts.held,
        summarised: counts.summarised,
    }
}

fn plain_triple(call: Call) -> naive_lists::Triple {
    naive_lists::Triple::new(call.subject, call.property, call.object)
}

fn feed_plain(
    counts: Counts,
    call: Call,
    roster: &[u8],
    triples: &mut [u32],
    summary: &mut [u32],
    weights: &mut [u32],
    map: &mut [u32],
    work: &mut [u32],
) -> Step {
    let mut after = plain_counts(counts);
    let lists = Lists {
        triples,
        summary,
        weights,
        map,
    };
    let answer = lists.feed(
        &mut after,
        plain_words(call.words),
        roster,
        work,
        plain_triple(call),
    );
    plain_called(answer, after)
}

fn remove_plain(
    counts: Counts,
    call: Call,
    roster: &[u8],
    triples: &mut [u32],
    summary: &mut [u32],
    weights: &mut [u32],
    map: &mut [u32],
    work: &mut [u32],
) -> Step {
    let mut after = plain_counts(counts);
    let lists = Lists {
        triples,
        summary,
        weights,
        map,
    };
    let answer = lists.remove(
        &mut after,
        plain_words(call.words),
        roster,
        work,
        plain_triple(call),
    );
    plain_called(answer, after)
}

fn feed_engine(
    counts: Counts,
    call: Call,
    roster: &[u8],
    triples: &mut [u32],
    summary: &mut [u32],
    weights: &mut [u32],
    map: &mut [u32],
    work: &mut [u32],
) -> Step {
    let words = call.words;
    engine_called(intake_by_value::feed_by_value(
        counts,
        words,
        roster,
        triples,
        summary,
        weights,
        map,
        work,
        call.subject,
        call.property,
        call.object,
    ))
}

fn remove_engine(
    counts: Counts,
    call: Call,
    roster: &[u8],
    triples: &mut [u32],
    summary: &mut [u32],
    weights: &mut [u32],
    map: &mut [u32],
    work: &mut [u32],
) -> Step {
    let words = call.words;
    engine_called(intake_by_value::remove_by_value(
        counts,
        words,
        roster,
        triples,
        summary,
        weights,
        map,
        work,
        call.subject,
        call.property,
        call.object,
    ))
}

// A call with a work list of junk.
fn call_one(
    engine: Engine,
    counts: Counts,
    call: Call,
    roster: &[u8],
    triples: &mut [u32],
    summary: &mut [u32],
    weights: &mut [u32],
    map: &mut [u32],
    work: &mut [u32],
) -> Step {
    junk(work);
    match (engine, call.removes) {
        (Engine::Plain, true) => {
            remove_plain(counts, call, roster, triples, summary, weights, map, work)
        }
        (Engine::Plain, false) => {
            feed_plain(counts, call, roster, triples, summary, weights, map, work)
        }
        (Engine::Proved, true) => {
            remove_engine(counts, call, roster, triples, summary, weights, map, work)
        }
        (Engine::Proved, false) => {
            feed_engine(counts, call, roster, triples, summary, weights, map, work)
        }
    }
}

// What a call leaves in the lists that an intake is lent.
#[derive(Clone, Copy)]
struct Left<'a> {
    triples: &'a [u32],
    summary: &'a [u32],
    weights: &'a [u32],
    map: &'a [u32],
}

impl Left<'_> {
    fn fold(&self, rt: &impl Print, run: Run, seen: Seen) -> io::Result<Seen> {
        let a = fold_list(rt, run, seen, "triples", self.triples)?;
        let b = fold_list(rt, run, a, "summary", self.summary)?;
        let c = fold_list(rt, run, b, "weights", self.weights)?;
        fold_list(rt, run, c, "map", self.map)
    }
}

// Folds an answer, its place and both counts.
fn fold_step(rt: &impl Print, run: Run, seen: Seen, step: Step) -> io::Result<Seen> {
    if run.show {
        show_answer(rt, run.engine, step.refused, step.count)?;
        let counts = [step.held, step.summarised];
        show_list(rt, run.engine, "counts", &counts)?;
    }
    let answer = seen.next(step.refused, step.count);
    let placed = fold_place(rt, run, answer, step.place)?;
    Ok(placed.fold_count(step.held).fold_count(step.summarised))
}

fn weigh(weights: &[u32]) -> Weighed {
    let mut sum = 0u64;
    let mut digits = 0u64;
    for number in weights {
        let weight = u64::from(*number);
        sum = sum.wrapping_add(weight);
        digits = (digits % 100000000000 * 10).wrapping_add(weight);
    }
    Weighed { sum, digits }
}

// A number that has the last sixteen representatives of a map as its digits to base 16, 15 where a code is absent; in a small case no code
// is over 14.
fn map_digits(map: &[u32]) -> u64 {
    let mut digits = 0u64;
    for code in map {
        let digit = u64::from((*code).min(15));
        digits = (digits % 1152921504606846976 * 16).wrapping_add(digit);
    }
    digits
}

// The column of a feed's answer: 15 for new. That of a removal's, where `kept` says whether other triples keep the ends of the triple: 15
// if so, for removed.
fn column_of(removes: bool, kept: bool, step: Step) -> u32
    ensures { result ≤ 15 }
{
    let is_yes = if removes {
        step.count == 2 && kept
    } else {
        step.count == 1
    };
    if is_yes { YES } else { step.refused.min(YES) }
}

impl State {
    // Before any call.
    fn start() -> Self {
        Self {
            seen: Seen {
                refused: 0,
                count: 0,
                one: 1,
                two: 1,
            },
            place: 0,
            weighed: Weighed { sum: 0, digits: 0 },
            map_digits: 0,
            opened: 0,
            counts: Counts {
                held: 1,
                summarised: 1,
            },
            feeds: [0; COLUMNS],
            removals: [0; COLUMNS],
            call: report::Call::Feed,
            column: 0,
        }
    }

    // After a call that leaves these lists; an opening has no work list.
    fn after(
        self,
        rt: &impl Print,
        run: Run,
        step: Step,
        lists: Left<'_>,
        work: Option<&[u32]>,
    ) -> io::Result<Self> {
        let answer = fold_step(rt, run, self.seen, step)?;
        let mut seen = lists.fold(rt, run, answer)?;
        if let Some(list) = work {
            seen = fold_list(rt, run, seen, "work", list)?;
        }
        Ok(Self {
            seen,
            place: step.place,
            weighed: weigh(lists.weights),
            map_digits: map_digits(lists.map),
            counts: Counts {
                held: step.held,
                summarised: step.summarised,
            },
            ..self
        })
    }

    // With one answer more.
    fn counted(self, removes: bool, kept: bool, step: Step) -> Self {
        let column = column_of(removes, kept, step);
        let mut next = Self { column, ..self };
        if removes {
            next.call = report::Call::Remove;
            next.removals[column as usize] = self.removals[column as usize].wrapping_add(1);
        } else {
            next.call = report::Call::Feed;
            next.feeds[column as usize] = self.feeds[column as usize].wrapping_add(1);
        }
        next
    }
}

// Lists are printed after the last call only.
fn shown_at(run: Run, calls: usize, last: usize) -> Run {
    Run {
        show: run.show && calls == last,
        ..run
    }
}

// Whether the triple of a removal has ends that other held triples keep.
fn kept(call: Call, roster: &[u8], triples: &[u32], held: usize) -> bool {
    if !call.removes {
        return false;
    }
    ends_kept(
        plain_words(call.words),
        roster,
        triples,
        held,
        plain_triple(call),
    )
}

// Junk in every list, and the intake opened over it if the case says so.
fn begin(
    rt: &impl Print,
    run: Run,
    case: Case,
    roster: &[u8],
    triples: &mut [u32],
    summary: &mut [u32],
    weights: &mut [u32],
    map: &mut [u32],
) -> io::Result<State> {
    junk(triples);
    junk(summary);
    junk(weights);
    junk(map);
    let state = State::start();
    if !case.opens {
        return Ok(state);
    }
    let step = open(
        run.engine, case.words, roster, triples, summary, weights, map,
    );
    let lists = Left {
        triples,
        summary,
        weights,
        map,
    };
    let opened = state.after(rt, shown_at(run, 0, case.calls), step, lists, None)?;
    Ok(State {
        opened: step.refused,
        ..opened
    })
}

fn called(
    rt: &impl Print,
    run: Run,
    state: State,
    call: Call,
    roster: &[u8],
    triples: &mut [u32],
    summary: &mut [u32],
    weights: &mut [u32],
    map: &mut [u32],
    work: &mut [u32],
) -> io::Result<State> {
    let counts = state.counts;
    let stays = kept(call, roster, triples, counts.held);
    let step = call_one(
        run.engine, counts, call, roster, triples, summary, weights, map, work,
    );
    let lists = Left {
        triples,
        summary,
        weights,
        map,
    };
    let next = state.counted(call.removes, stays, step);
    next.after(rt, run, step, lists, Some(&*work))
}

// The whole of a case over lists of at most those lengths. No call follows a refused opening.
fn over<const SLOTS: usize, const WEIGHTS: usize, const CODES: usize, const WORK: usize>(
    rt: &impl Print,
    run: Run,
    input: Input<'_>,
) -> io::Result<State>
    requires { (SLOTS ≤ 100) × (WEIGHTS ≤ 100) × (CODES ≤ 65537) × (WORK ≤ 131074) }
{
    let case = input.case;
    let mut triples = [0u32; SLOTS];
    let mut summary = [0u32; SLOTS];
    let mut weights = [0u32; WEIGHTS];
    let mut map = [0u32; CODES];
    let mut work = [0u32; WORK];
    let triples = &mut triples[..case.triples.min(SLOTS)];
    let summary = &mut summary[..case.summary.min(SLOTS)];
    let weights = &mut weights[..case.weights.min(WEIGHTS)];
    let map = &mut map[..case.map.min(CODES)];
    let mut state = begin(rt, run, case, input.roster, triples, summary, weights, map)?;
    if state.opened != 0 {
        return Ok(state);
    }
    let last = case.calls.min(MOST_CALLS);
    for i in 0..last.min(input.calls.len()) {
        let call = input.calls[i];
        let roster = input.lent(call);
        let lent = &mut work[..call.work.min(WORK)];
        state = called(
            rt,
            shown_at(run, i + 1, last),
            state,
            call,
            roster,
            triples,
            summary,
            weights,
            map,
            lent,
        )?;
    }
    Ok(state)
}

// The whole of a case over lists of its own.
pub fn all_calls(rt: &impl Print, run: Run, input: Input<'_>) -> io::Result<State> {
    if input.roster.len() <= 25 {
        over::<100, 100, 50, 50>(rt, run, input)
    } else {
        over::<6, 2, 65537, 131074>(rt, run, input)
    }
}
