// One engine runs a call on a table with a roster, over lists of its own, which hold junk before it; all that it leaves is folded.
ghost use Rattle.std.specs.Prelude.{◌≤◌};

use super::answers::Answer;
use comparison_report::digest::{Engine, Run, Seen, answered, fold_list};
use comparison_report::report::Call;
use model::Vocabulary;
use naive_summary::Equivalence;
use random_sites::words::plain_words;
use std::io;

// A table with its words and a roster.
#[derive(Clone, Copy)]
pub struct Site<'a> {
    pub words: Vocabulary,
    pub table: &'a [u32],
    pub roster: &'a [u8],
}

// The lengths of the lists that a call is lent: the result, then the map and the work list, or sources and targets. The own roster is as
// long as the roster.
#[derive(Clone, Copy)]
pub struct Lengths {
    pub result: usize,
    pub first: usize,
    pub second: usize,
}

// What a call left in those lists.
#[derive(Clone, Copy)]
pub struct Lists<'a> {
    pub marks: &'a [u8],
    pub result: &'a [u32],
    pub first: &'a [u32],
    pub second: &'a [u32],
}

// Fills a list with numbers that no call leaves there.
pub fn junk(list: &mut [u32]) {
    let mut value = 1000000u32;
    for number in list {
        *number = value;
        value = value.wrapping_add(1);
    }
}

fn by_engine(
    call: Call,
    site: Site<'_>,
    marks: &mut [u8],
    res: &mut [u32],
    first: &mut [u32],
    second: &mut [u32],
) -> Answer {
    let Site {
        words,
        table,
        roster,
    } = site;
    match call {
        Call::OwnRoster => roster::own_roster(words, table, marks).into(),
        Call::Saturate => saturate::saturate(words, table, roster, res).into(),
        Call::Cliques => cliques::cliques(words, table, roster, first, second).into(),
        Call::Strong => {
            summarise_strong::summarise_strong(words, table, roster, res, first, second).into()
        }
        _ => summarise::summarise(words, table, roster, res, first, second).into(),
    }
}

fn by_plain(
    call: Call,
    site: Site<'_>,
    marks: &mut [u8],
    res: &mut [u32],
    first: &mut [u32],
    second: &mut [u32],
) -> Answer {
    let site = naive_checks::Site {
        words: plain_words(site.words),
        table: site.table,
        roster: site.roster,
    };
    match call {
        Call::OwnRoster => naive_checks::own_roster(site.words, site.table, marks).into(),
        Call::Saturate => naive_saturation::saturate(site, res).into(),
        Call::Cliques => naive_cliques::cliques(site, first, second).into(),
        Call::Strong => naive_summary::summarise(
            site,
            Equivalence::Strong,
            res,
            first,
            second,
        ).into(),
        _ => naive_summary::summarise(site, Equivalence::Weak, res, first, second).into(),
    }
}

// An answer and the lists that it left.
pub fn left(rt: &impl Print, run: Run, got: Answer, lists: Lists<'_>) -> io::Result<Seen> {
    let a = answered(rt, run, got.refused, got.count)?;
    let b = fold_list(rt, run, a, "roster", lists.marks)?;
    let c = fold_list(rt, run, b, "result", lists.result)?;
    let d = fold_list(rt, run, c, "first", lists.first)?;
    fold_list(rt, run, d, "second", lists.second)
}

// A call over lists for a site of up to so many codes, and that many for the work list or targets.
fn over<const CODES: usize, const SECOND: usize>(
    rt: &impl Print,
    run: Run,
    call: Call,
    site: Site<'_>,
    wanted: Lengths,
) -> io::Result<Seen>
    requires { (CODES ≤ 65537) × (SECOND ≤ 131074) }
{
    let mut marks = [77u8; CODES];
    let mut result = [0u32; 600];
    let mut first = [0u32; CODES];
    let mut second = [0u32; SECOND];
    let marks = &mut marks[..site.roster.len().min(CODES)];
    let result = &mut result[..wanted.result.min(600)];
    let first = &mut first[..wanted.first.min(CODES)];
    let second = &mut second[..wanted.second.min(SECOND)];
    junk(result);
    junk(first);
    junk(second);
    let got = match run.engine {
        Engine::Proved => by_engine(call, site, marks, result, first, second),
        Engine::Plain => by_plain(call, site, marks, result, first, second),
    };
    let lists = Lists {
        marks,
        result,
        first,
        second,
    };
    left(rt, run, got, lists)
}

// What an engine leaves after a call, with lists of those lengths.
pub fn after(
    rt: &impl Print,
    run: Run,
    call: Call,
    site: Site<'_>,
    wanted: Lengths,
) -> io::Result<Seen> {
    if site.roster.len() <= 311 {
        over::<311, 622>(rt, run, call, site, wanted)
    } else {
        over::<65537, 131074>(rt, run, call, site, wanted)
    }
}
