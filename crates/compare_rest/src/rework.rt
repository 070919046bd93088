// Summarises a saturated table and works what that leaves again.
ghost use Rattle.std.specs.Prelude.{◌≡◌, ◌≤◌, IfOk, OnErr, length};

use super::maps::{carries, own_map};
use comparison::answers::Answer;
use comparison::calls::table_call;
use comparison::engines::{Lengths, Lists, Site, left};
use comparison_report::digest::{Engine, Run, Seen};
use comparison_report::report::{Call, Tally};
use model::{Refusal, Vocabulary};
use random_sites::random::triples_end;
use std::io;

// The engine, which prints nothing.
pub const QUIET: Run = Run {
    engine: Engine::Proved,
    show: false,
};

// What a call leaves that is accepted with a summary of a site of n codes as its result, and those two lists.
fn left_with(
    rt: &impl Print,
    n: usize,
    summary: &[u32],
    first: &[u32],
    second: &[u32],
) -> io::Result<Seen> {
    let marks = [77u8; 24];
    let lists = Lists {
        marks: &marks[..n.min(24)],
        result: summary,
        first,
        second,
    };
    left(rt, QUIET, Answer::accepted(summary.len() / 3, 0), lists)
}

// The same of summarising, with a cleared work list.
pub fn left_condensed(rt: &impl Print, summary: &[u32], map: &[u32]) -> io::Result<Seen> {
    let work = [0u32; 48];
    let n = map.len().min(24);
    left_with(rt, n, summary, map, &work[..2 * n])
}

// Saturates a site whose table is a summary.
fn saturate_again(
    rt: &impl Print,
    tally: &mut Tally,
    call: Call,
    seed: u64,
    site: Site<'_>,
) -> io::Result<()> {
    let wanted = Lengths {
        result: site.table.len(),
        first: 0,
        second: 0,
    };
    let got = table_call(rt, tally, Call::Saturate, seed, site, wanted)?;
    let kept = left_with(rt, site.roster.len(), site.table, &[], &[])?;
    tally.check(rt, call, seed, "saturated", got == kept)
}

// Reworks a site whose table is a summary that came with a map. `second` is the map that it has at rest.
fn rework(
    rt: &impl Print,
    tally: &mut Tally,
    call: Call,
    seed: u64,
    site: Site<'_>,
    first: &[u32],
    second: &[u32],
) -> io::Result<()> {
    let n = site.roster.len().min(24);
    let wanted = Lengths {
        result: site.table.len(),
        first: n,
        second: 2 * n,
    };
    saturate_again(rt, tally, call, seed, site)?;
    let got = table_call(rt, tally, call, seed, site, wanted)?;
    let kept = left_condensed(rt, site.table, second)?;
    tally.check(rt, call, seed, "again", got == kept)?;
    tally.check(rt, call, seed, "carried", carries(first, second))
}

fn condense(
    call: Call,
    words: Vocabulary,
    table: &[u32],
    roster: &[u8],
    res: &mut [u32],
    map: &mut [u32],
    work: &mut [u32],
) -> Result<usize, Refusal> {
    if call == Call::Strong {
        return summarise_strong::summarise_strong(words, table, roster, res, map, work);
    }
    summarise::summarise(words, table, roster, res, map, work)
}

// The engine's summary and map; how many numbers the summary's triples take.
fn summary_of(call: Call, site: Site<'_>, res: &mut [u32], map: &mut [u32]) -> usize
    ensures { result ≤ length res.new }
{
    let Site {
        words,
        table,
        roster,
    } = site;
    let mut work = [0u32; 48];
    let w = 2 * roster.len().min(24);
    let got: Answer = condense(call, words, table, roster, res, map, &mut work[0..w]).into();
    triples_end(got.count, res.len())
}

// The engine's saturation; how many numbers its triples take.
pub fn closure(site: Site<'_>, closed: &mut [u32]) -> usize
    ensures { result ≤ length closed.new }
{
    let Site {
        words,
        table,
        roster,
    } = site;
    let got: Answer = saturate::saturate(words, table, roster, closed).into();
    triples_end(got.count, closed.len())
}

// Summarises a saturated table into a result list and reworks what that leaves. Answers how many numbers the summary's triples
// take.
pub fn ship(
    rt: &impl Print,
    tally: &mut Tally,
    call: Call,
    seed: u64,
    site: Site<'_>,
    res: &mut [u32],
) -> io::Result<usize>
    ensures ok { IfOk result (λ n. n ≤ length res.new) }
    // a failed print is the only error; the list keeps its length
    ensures err { OnErr result (length res.new ≡ length res.old) }
{
    let mut first = [0u32; 24];
    let mut second = [0u32; 24];
    let n = site.roster.len().min(24);
    let first = &mut first[..n];
    let second = &mut second[..n];
    let wanted = Lengths {
        result: res.len(),
        first: n,
        second: 2 * n,
    };
    let got = table_call(rt, tally, call, seed, site, wanted)?;
    tally.check(rt, call, seed, "accepted", got.refused == 0)?;
    let end = summary_of(call, site, res, first);
    let summary = Site {
        table: &res[..end],
        ..site
    };
    own_map(summary.table, second);
    rework(rt, tally, call, seed, summary, first, second)?;
    Ok(end)
}
