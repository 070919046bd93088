// Cliques of an empty table, with rosters of each length from 5 to 40 that have one value, at each place in turn.
use comparison::calls::table_call;
use comparison::engines::{Lengths, Site};
use comparison_report::report::{Call, Tally};
use lists::rdfs_words;
use random_sites::random::set;
use std::io;

const VALUES: [u8; 8] = [3, 4, 7, 8, 64, 128, 252, 255];

// The answer that 01 gives: 2 for a value over 3, and for a reserved code that is marked, as each of the values does.
fn expected(place: usize, value: u8) -> u32 {
    if 3 < value || place < 5 { 2 } else { 0 }
}

fn case(
    rt: &impl Print,
    tally: &mut Tally,
    seed: u64,
    n: usize,
    place: usize,
    value: u8,
) -> io::Result<()> {
    let mut space = [0u8; 40];
    let m = n.min(40);
    let roster = &mut space[..m];
    set(roster, place, value);
    let site = Site {
        words: rdfs_words(),
        table: &[],
        roster,
    };
    let wanted = Lengths {
        result: 0,
        first: m,
        second: m,
    };
    let seen = table_call(rt, tally, Call::Cliques, seed, site, wanted)?;
    let right = seen.refused == expected(place, value);
    tally.check(rt, Call::Cliques, seed, "expected", right)
}

// A case for each length, place and value.
pub fn all(rt: &impl Print, tally: &mut Tally) -> io::Result<()> {
    for n in 5..41 {
        for place in 0..n {
            for v in 0..8 {
                let seed = 320 * (n - 5) + 8 * place + v;
                case(rt, tally, seed as u64, n, place, VALUES[v])?;
            }
        }
    }
    Ok(())
}
