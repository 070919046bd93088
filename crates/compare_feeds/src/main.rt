// Compares opening, feeding and removing with the plain intake: every refusal and small lists of calls, which standard input has, and many
// lists of feeds, and of feeds and removals, to random sites. After every call the answer, the contents of every lent list and both counts
// are folded into a digest, and the digests of both engines are compared. Prints the small cases, each difference, and the counts.
#![tactic(auto)]

mod cases;
mod chains;
mod feeds;
mod sizes;

use comparison_report::report::Tally;
use read_full::read_full;
use std::io;

fn main(rt: HostRuntime) -> io::Result<()> {
    let mut tally = Tally::new();
    let mut text = [0u8; 16384];
    let n = read_full(&mut rt.stdin(), &mut text)?;
    cases::all(&rt, &mut tally, &text[0..n])?;
    sizes::all(&rt, &mut tally)?;
    feeds::all(&rt, &mut tally)?;
    chains::all(&rt, &mut tally)?;
    tally.print(&rt)
}
