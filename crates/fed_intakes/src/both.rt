// The same case on both engines.
use super::inputs::{Call, Input, MOST_CALLS};
use super::intakes::{State, all_calls};
use comparison_report::digest::{Engine, Run};
use comparison_report::report;
use comparison_report::report::{COLUMNS, Tally};
use std::io;

// What the engine and the plain intake leave.
fn both(rt: &impl Print, show: bool, input: Input<'_>) -> io::Result<(State, State)> {
    let engine = Run {
        engine: Engine::Proved,
        show,
    };
    let plain = Run {
        engine: Engine::Plain,
        show,
    };
    let got = all_calls(rt, engine, input)?;
    Ok((got, all_calls(rt, plain, input)?))
}

// The smallest number of calls after which the engines differ.
fn first_difference(rt: &impl Print, input: Input<'_>) -> io::Result<usize> {
    let last = input.case.calls.min(MOST_CALLS);
    for k in 0..last {
        let (got, want) = both(rt, false, input.with_calls(k))?;
        if got.seen != want.seen {
            return Ok(k);
        }
    }
    Ok(last)
}

// Reports the last of some calls, or the opening where there are none; whether its lists are to be printed.
fn report_difference(
    rt: &impl Print,
    tally: &mut Tally,
    seed: u64,
    calls: &[Call],
) -> io::Result<bool> {
    let Some(call) = calls.last() else {
        return tally.differs(rt, report::Call::Open, seed);
    };
    let row = if call.removes {
        report::Call::Remove
    } else {
        report::Call::Feed
    };
    let shown = tally.differs(rt, row, seed)?;
    println!(rt; "(call at place {})", calls.len())?;
    Ok(shown)
}

// Finds the first call that differs, and prints its lists.
fn explain(rt: &impl Print, tally: &mut Tally, seed: u64, input: Input<'_>) -> io::Result<()> {
    let k = first_difference(rt, input)?;
    let calls = &input.calls[..k.min(input.calls.len())];
    if report_difference(rt, tally, seed, calls)? {
        both(rt, true, input.with_calls(k))?;
    }
    Ok(())
}

// Whether the weights of an opened intake add up to the number of feeds that were new less that of the accepted removals.
fn adds_up(opens: bool, state: State) -> bool {
    let removed = state.removals[0].wrapping_add(state.removals[15]);
    !opens || state.opened != 0 || state.weighed.sum.wrapping_add(removed) == state.feeds[15]
}

// Runs both engines and compares their digests, and the engine's weights with its answers; what the engine left.
pub fn compare(
    rt: &impl Print,
    tally: &mut Tally,
    seed: u64,
    input: Input<'_>,
) -> io::Result<State> {
    let (got, want) = both(rt, false, input)?;
    let ok = adds_up(input.case.opens, got);
    tally.check(rt, report::Call::Feed, seed, "sum of the weights", ok)?;
    if got.seen != want.seen {
        explain(rt, tally, seed, input)?;
    }
    Ok(got)
}

pub fn record_open(tally: &mut Tally, state: State) {
    tally.record(report::Call::Open, state.opened);
}

// Counts the answer of the last call.
pub fn record_last(tally: &mut Tally, state: State) {
    tally.record(state.call, state.column);
}

// Counts the answers of all calls.
pub fn record_calls(tally: &mut Tally, state: State) {
    for column in 0..COLUMNS {
        tally.record_all(report::Call::Feed, column, state.feeds[column]);
        tally.record_all(report::Call::Remove, column, state.removals[column]);
    }
}
