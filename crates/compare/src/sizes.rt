// Every call that has a site size, at the sizes 4, 5, 65,536 and 65,537.
use comparison::calls;
use comparison::calls::table_call;
use comparison::engines::{Lengths, Site};
use comparison_report::report::{Call, Tally, sized};
use lists::rdfs_words;
use std::io;

// With a result of six numbers, a map or sources of n, and that length for the work list or targets.
fn case(
    rt: &impl Print,
    tally: &mut Tally,
    call: Call,
    expected: u32,
    site: Site<'_>,
    second: usize,
) -> io::Result<()> {
    let n = site.roster.len();
    let wanted = Lengths {
        result: 6,
        first: n,
        second,
    };
    let seen = table_call(rt, tally, call, 0, site, wanted)?;
    sized(rt, call, n, expected, seen.refused)
}

// Asks for a triple with property 0 between any two nodes, of which there is none.
fn ask(rt: &impl Print, tally: &mut Tally, n: usize, table: &[u32]) -> io::Result<u32> {
    let map = [0u32; 65537];
    let mut query = [0u32; 41];
    query[0] = 1;
    let m = n.min(65537);
    calls::ask(rt, tally, 0, rdfs_words(), table, &map[..m], &query)
}

// Property 5 is marked: that covers the table.
fn at_size(
    rt: &impl Print,
    tally: &mut Tally,
    n: usize,
    table: &[u32],
    expected: u32,
) -> io::Result<()> {
    let mut roster = [0u8; 65537];
    let m = n.min(65537);
    roster[5] = 2;
    let site = Site {
        words: rdfs_words(),
        table,
        roster: &roster[..m],
    };
    case(rt, tally, Call::OwnRoster, expected, site, m)?;
    case(rt, tally, Call::Saturate, expected, site, m)?;
    case(rt, tally, Call::Cliques, expected, site, m)?;
    case(rt, tally, Call::Summarise, expected, site, 2 * m)?;
    case(rt, tally, Call::Strong, expected, site, 2 * m)?;
    sized(rt, Call::Ask, n, expected, ask(rt, tally, n, table)?)
}

pub fn all(rt: &impl Print, tally: &mut Tally) -> io::Result<()> {
    let table = [65535u32, 5, 65534];
    at_size(rt, tally, 4, &[], 1)?;
    at_size(rt, tally, 5, &[], 0)?;
    at_size(rt, tally, 65536, &table, 0)?;
    at_size(rt, tally, 65537, &table, 1)
}
