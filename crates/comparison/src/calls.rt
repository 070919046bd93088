// Each call, made on both engines with the same input: what they leave is compared and counted.
use super::answers::Answer;
use super::engines::{Lengths, Site, after};
use comparison_report::digest::{Engine, Run, Seen, answered, fold_place};
use comparison_report::report::{Call, Tally, YES};
use model::{Triple, Vocabulary};
use query::{End, Pattern, Query, blank_pattern};
use random_sites::random::get;
use random_sites::words::plain_words;
use std::io;

// Makes a call on one engine and on the other, and counts a difference if there is one; both are made again where their lists are to be
// printed. What the first one leaves.
fn on_both<F: Fn(Run) -> io::Result<Seen>>(
    rt: &impl Print,
    tally: &mut Tally,
    call: Call,
    seed: u64,
    make: F,
) -> io::Result<Seen>
    requires { F.IsAlwaysCallable make }
{
    let run = |engine, show| Run { engine, show };
    let got = make(run(Engine::Proved, false))?;
    let want = make(run(Engine::Plain, false))?;
    if got != want && tally.differs(rt, call, seed)? {
        make(run(Engine::Proved, true))?;
        make(run(Engine::Plain, true))?;
    }
    Ok(got)
}

// A call on a site, with lists of those lengths.
pub fn table_call(
    rt: &impl Print,
    tally: &mut Tally,
    call: Call,
    seed: u64,
    site: Site<'_>,
    wanted: Lengths,
) -> io::Result<Seen> {
    let got = on_both(rt, tally, call, seed, |run| {
        after(rt, run, call, site, wanted)
    })?;
    tally.record(call, got.refused);
    Ok(got)
}

// The column of a yes or no answer.
pub fn column(a: Answer) -> u32 {
    if a.count == 1 { YES } else { a.refused }
}

// An answer and its place, folded.
fn placed(rt: &impl Print, run: Run, a: Answer) -> io::Result<Seen> {
    fold_place(rt, run, answered(rt, run, a.refused, a.count)?, a.place)
}

// Counts the answers of a call that leaves no lists.
fn settle_answers(
    rt: &impl Print,
    tally: &mut Tally,
    call: Call,
    seed: u64,
    got: Answer,
    want: Answer,
) -> io::Result<()> {
    on_both(rt, tally, call, seed, |run| match run.engine {
        Engine::Proved => placed(rt, run, got),
        Engine::Plain => placed(rt, run, want),
    })?;
    tally.record(call, column(got));
    Ok(())
}

// What the engine answers.
pub fn look_up(
    rt: &impl Print,
    tally: &mut Tally,
    seed: u64,
    list: &[u32],
    t: Triple,
) -> io::Result<Answer> {
    let Triple {
        subject: s,
        property: p,
        object: o,
    } = t;
    let got = look_up::look_up(list, t).into();
    let want = naive_ask::look_up(list, naive_lists::Triple::new(s, p, o)).into();
    settle_answers(rt, tally, Call::LookUp, seed, got, want)?;
    Ok(got)
}

fn end_of(kind: u32, value: u32) -> End {
    if kind == 0 {
        End::Var(value)
    } else {
        End::Code(value)
    }
}

// The pattern whose five numbers begin at a place.
fn pattern_of(query: &[u32], from: usize) -> Pattern {
    let k = from.min(36);
    Pattern {
        subject: end_of(get(query, k), get(query, k + 1)),
        property: get(query, k + 2),
        object: end_of(get(query, k + 3), get(query, k + 4)),
    }
}

// The engine's query of the 41 numbers of a plain one.
fn query_of(query: &[u32]) -> Query {
    let mut patterns = [blank_pattern(); 8];
    for k in 0..8 {
        patterns[k] = pattern_of(query, 1 + 5 * k);
    }
    Query {
        patterns,
        count: get(query, 0),
    }
}

// The column of what the engine answers.
pub fn ask(
    rt: &impl Print,
    tally: &mut Tally,
    seed: u64,
    words: Vocabulary,
    table: &[u32],
    map: &[u32],
    query: &[u32],
) -> io::Result<u32> {
    let got = ask::ask(words, table, map, query_of(query)).into();
    let want = naive_ask::ask(plain_words(words), table, map, query).into();
    settle_answers(rt, tally, Call::Ask, seed, got, want)?;
    Ok(column(got))
}
