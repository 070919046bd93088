// The calls on random sites.
use comparison::calls::{look_up, table_call};
use comparison::engines::{Lengths, Site};
use comparison_report::report::{Call, Tally};
use model::Triple;
use random_sites::random::{get, pick};
use random_sites::sites::{base, fill_table, near, place_in, room, size, table_length};
use random_sites::words;
use std::io;

fn table_cases(rt: &impl Print, tally: &mut Tally, seed: u64, site: Site<'_>) -> io::Result<()> {
    let n = site.roster.len();
    let sides = Lengths {
        result: 0,
        first: near(seed, 30, n),
        second: near(seed, 31, n),
    };
    let result = Lengths {
        result: room(seed),
        first: 0,
        second: 0,
    };
    table_call(rt, tally, Call::OwnRoster, seed, site, sides)?;
    table_call(rt, tally, Call::Saturate, seed, site, result)?;
    table_call(rt, tally, Call::Cliques, seed, site, sides)?;
    Ok(())
}

fn summary_cases(rt: &impl Print, tally: &mut Tally, seed: u64, site: Site<'_>) -> io::Result<()> {
    let n = site.roster.len().min(24);
    let wanted = Lengths {
        result: room(seed),
        first: near(seed, 32, n),
        second: near(seed, 33, 2 * n),
    };
    table_call(rt, tally, Call::Summarise, seed, site, wanted)?;
    table_call(rt, tally, Call::Strong, seed, site, wanted)?;
    Ok(())
}

// Summaries are of the table, or every other time of its saturation.
fn site_cases(rt: &impl Print, tally: &mut Tally, seed: u64) -> io::Result<()> {
    let mut table = [0u32; 62];
    let mut roster = [0u8; 24];
    let mut closed = [0u32; 600];
    let n = size(seed);
    let table = &mut table[..table_length(seed)];
    let roster = &mut roster[..n];
    let end = base(seed, table, roster, &mut closed);
    let site = Site {
        words: words::given(seed, n),
        table,
        roster,
    };
    table_cases(rt, tally, seed, site)?;
    let list = &closed[..end];
    summary_cases(
        rt,
        tally,
        seed,
        Site {
            table: list,
            ..site
        },
    )
}

// A triple of a table, and one with another object.
fn look_up_cases(rt: &impl Print, tally: &mut Tally, seed: u64) -> io::Result<()> {
    let mut space = [0u32; 62];
    let table = &mut space[..table_length(seed)];
    fill_table(table, seed, 24);
    let k = 3 * place_in(seed, 40, table.len() / 3);
    let t = Triple {
        subject: get(table, k),
        property: get(table, k + 1),
        object: get(table, k + 2),
    };
    let other = Triple {
        object: 5 + pick(seed, 41, 20),
        ..t
    };
    look_up(rt, tally, seed, table, t)?;
    look_up(rt, tally, seed, table, other)?;
    Ok(())
}

pub fn all(rt: &impl Print, tally: &mut Tally) -> io::Result<()> {
    for seed in 0..200000 {
        site_cases(rt, tally, seed)?;
        look_up_cases(rt, tally, seed)?;
    }
    Ok(())
}
