// The site printer: reads a text of the site form from standard input and prints the weak summary of its saturation, the map and
// the answers to its queries.
#![tactic(auto)]

use printer::print_site;
use read_full::read_full;
use site_form::MOST_BYTES;
use std::io;

// Reads one byte more than a text may have: more is refused with 8.
fn main(rt: HostRuntime) -> io::Result<()> {
    let mut input = [0u8; MOST_BYTES + 1];
    let mut output = [0u8; 65536];
    let n = read_full(&mut rt.stdin(), &mut input)?;
    let count = print_site(&input[0..n], &mut output);
    rt.write_all(&output[0..count])
}
