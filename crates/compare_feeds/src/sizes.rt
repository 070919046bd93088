// Opening, feeding and removing at the sizes 4, 5, 65,536 and 65,537.
use comparison_report::report;
use comparison_report::report::{Tally, sized};
use fed_intakes::both::{compare, record_last, record_open};
use fed_intakes::inputs::{Call, Case, Input};
use fed_intakes::intakes::State;
use lists::rdfs_words;
use std::io;

// An intake of that size and its calls. Property 5 is marked where it covers the triple of an opened one.
fn run(
    rt: &impl Print,
    tally: &mut Tally,
    n: usize,
    opens: bool,
    calls: &[Call],
) -> io::Result<State> {
    let mut roster = [0u8; 65537];
    let m = n.min(65537);
    if opens && !calls.is_empty() {
        roster[5] = 2;
    }
    let case = Case {
        words: rdfs_words(),
        opens,
        calls: calls.len(),
        triples: 6,
        summary: 6,
        weights: 2,
        map: m,
    };
    let input = Input {
        case,
        calls,
        roster: &roster[..m],
        spoilt: &roster[..m],
    };
    compare(rt, tally, 0, input)
}

fn feed_of_size(n: usize, s: u32, p: u32, o: u32) -> Call {
    Call::feed(rdfs_words(), 2 * n.min(65537), s, p, o)
}

fn open(rt: &impl Print, tally: &mut Tally, n: usize, expected: u32) -> io::Result<()> {
    let state = run(rt, tally, n, true, &[])?;
    record_open(tally, state);
    sized(rt, report::Call::Open, n, expected, state.opened)
}

// An opened intake is fed 65535 5 65534.
fn feed(rt: &impl Print, tally: &mut Tally, n: usize, expected: u32) -> io::Result<()> {
    let call = feed_of_size(n, 65535, 5, 65534);
    let state = run(rt, tally, n, true, &[call])?;
    record_open(tally, state);
    record_last(tally, state);
    sized(rt, report::Call::Feed, n, expected, state.seen.refused)
}

// That triple is removed again.
fn remove(rt: &impl Print, tally: &mut Tally, n: usize, expected: u32) -> io::Result<()> {
    let call = feed_of_size(n, 65535, 5, 65534);
    let state = run(rt, tally, n, true, &[call, call.removal()])?;
    record_last(tally, state);
    sized(rt, report::Call::Remove, n, expected, state.seen.refused)
}

// A size that is refused.
fn feed_refused(rt: &impl Print, tally: &mut Tally, n: usize, expected: u32) -> io::Result<()> {
    let state = run(rt, tally, n, false, &[feed_of_size(n, 10, 5, 12)])?;
    record_last(tally, state);
    sized(rt, report::Call::Feed, n, expected, state.seen.refused)
}

fn remove_refused(rt: &impl Print, tally: &mut Tally, n: usize, expected: u32) -> io::Result<()> {
    let call = feed_of_size(n, 10, 5, 12).removal();
    let state = run(rt, tally, n, false, &[call])?;
    record_last(tally, state);
    sized(rt, report::Call::Remove, n, expected, state.seen.refused)
}

pub fn all(rt: &impl Print, tally: &mut Tally) -> io::Result<()> {
    open(rt, tally, 4, 1)?;
    open(rt, tally, 5, 0)?;
    open(rt, tally, 65536, 0)?;
    open(rt, tally, 65537, 1)?;
    feed_refused(rt, tally, 4, 1)?;
    feed(rt, tally, 5, 3)?;
    feed(rt, tally, 65536, 0)?;
    feed_refused(rt, tally, 65537, 1)?;
    remove_refused(rt, tally, 4, 1)?;
    remove(rt, tally, 5, 3)?;
    remove(rt, tally, 65536, 0)?;
    remove_refused(rt, tally, 65537, 1)
}
