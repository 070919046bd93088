// Compares the engine with the naive one in own roster, saturate, cliques, both summaries, look up and ask: every refusal and small
// graph of the papers, which standard input has, rosters with one value, then many random sites. After every call both answers and a
// digest of every lent list are compared. Prints the small cases, each difference, and the counts.
#![tactic(auto)]

mod cases;
mod queries;
mod rosters;
mod sites;
mod sizes;

use comparison_report::report::Tally;
use read_full::read_full;
use std::io;

fn main(rt: HostRuntime) -> io::Result<()> {
    let mut tally = Tally::new();
    let mut text = [0u8; 16384];
    let n = read_full(&mut rt.stdin(), &mut text)?;
    cases::all(&rt, &mut tally, &text[0..n])?;
    sizes::all(&rt, &mut tally)?;
    rosters::all(&rt, &mut tally)?;
    sites::all(&rt, &mut tally)?;
    queries::all(&rt, &mut tally)?;
    tally.print(&rt)
}
