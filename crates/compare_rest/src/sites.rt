// Random sites whose saturation is accepted.
use super::rework::{closure, ship};
use comparison::calls::table_call;
use comparison::engines::{Lengths, Site};
use comparison_report::report::{Call, Tally, reworked};
use random_sites::{sites, words};
use std::io;

// Both summaries of a saturated table.
fn ship_both(rt: &impl Print, tally: &mut Tally, seed: u64, site: Site<'_>) -> io::Result<()> {
    let mut weak = [0u32; 600];
    let mut strong = [0u32; 600];
    ship(rt, tally, Call::Summarise, seed, site, &mut weak)?;
    ship(rt, tally, Call::Strong, seed, site, &mut strong)?;
    Ok(())
}

// Whether the table is accepted.
fn saturate_and_ship(
    rt: &impl Print,
    tally: &mut Tally,
    seed: u64,
    site: Site<'_>,
) -> io::Result<bool> {
    let mut closed = [0u32; 600];
    let wanted = Lengths {
        result: 600,
        first: 0,
        second: 0,
    };
    let got = table_call(rt, tally, Call::Saturate, seed, site, wanted)?;
    if got.refused != 0 {
        return Ok(false);
    }
    let end = closure(site, &mut closed);
    let saturated = Site {
        table: &closed[..end],
        ..site
    };
    ship_both(rt, tally, seed, saturated)?;
    Ok(true)
}

fn site_case(rt: &impl Print, tally: &mut Tally, seed: u64) -> io::Result<bool> {
    let mut table = [0u32; 62];
    let mut roster = [0u8; 24];
    let n = sites::size(seed);
    let table = &mut table[..sites::table_length(seed)];
    let roster = &mut roster[..n];
    sites::make(seed, table, roster);
    let site = Site {
        words: words::right(seed, n),
        table,
        roster,
    };
    saturate_and_ship(rt, tally, seed, site)
}

pub fn all(rt: &impl Print, tally: &mut Tally) -> io::Result<()> {
    let mut count = 0u64;
    for seed in 0..100000 {
        if site_case(rt, tally, seed)? {
            count = count.wrapping_add(1);
        }
    }
    reworked(rt, count)
}
