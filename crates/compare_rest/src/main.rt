// A controller reloads its summary and works it again: the summary of a saturated table, saturated and summarised once more into
// lists just long enough for it, stays as it is, and each of its nodes represents itself. Tries small graphs and random sites on
// both engines; prints the small cases, each difference, and the counts.
#![tactic(auto)]

mod maps;
mod rework;
mod sites;
mod small;

use comparison_report::report::Tally;
use std::io;

fn main(rt: HostRuntime) -> io::Result<()> {
    let mut tally = Tally::new();
    small::all(&rt, &mut tally)?;
    sites::all(&rt, &mut tally)?;
    tally.print(&rt)
}
