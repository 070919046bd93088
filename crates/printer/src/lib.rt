// The site printer: what is printed of a text.
#![tactic(auto)]

ghost use Rattle.std.specs.Prelude.{◌≡◌, ◌%◌, ◌*◌, ◌≤◌, length};
ghost use Rattle.model.specs.Triples.{triples};
ghost use Rattle.site_form.specs.Text.{most_lines, most_asks};
ghost use Rattle.site_form.specs.Printing.{shown, printed};
ghost use Rattle.site_bytes.specs.Calls.{Put};
ghost use Rattle.table_printing.specs.Outcomes.{saturation_outcome, site_outcome, CheckedTable};

use lists::{Code, wide};
use model::Refusal;
use site_form::{LARGEST_PRINTED, MOST_BYTES, MOST_LINES, Site};
use site_reader::read;
use table_printing::{RESULT_NUMBERS, refuse, saturate_and_print};

// How many numbers the list for the triples of a text has.
const READ_NUMBERS: usize = 3 * MOST_LINES;

// Prints a table that the checks 1, 10 and 3 pass: makes the lists that it is saturated in.
fn print_checked_table(site: &Site, out: &mut [u8], table: &[u32], n: usize) -> usize
    requires { (site.now.asks ≤ most_asks) × CheckedTable site.now.words table.now n }
    ensures { Put out.old 0 (shown (saturation_outcome site.now.words n (triples table.now) site.now.queries site.now.asks)) out.new result }
{
    let mut roster: [u8; LARGEST_PRINTED] = [0; LARGEST_PRINTED];
    let mut list: [u32; RESULT_NUMBERS] = [0; RESULT_NUMBERS];
    saturate_and_print(site, out, table, &mut roster[0..n], &mut list)
}

// Checks a table as it was read, by 1, 10 and 3, and prints it.
fn check_and_print(site: &Site, out: &mut [u8], table: &[u32]) -> usize
    requires { (site.now.asks ≤ most_asks) × (length table.now % 3 ≡ 0) × (length table.now ≤ 3 * most_lines) }
    ensures { Put out.old 0 (shown (site_outcome site.now.words site.now.size (triples table.now) site.now.queries site.now.asks)) out.new result }
{
    let n = wide(site.size);
    if checks::size_wrong(n) {
        return refuse(out, Refusal::Length);
    }
    if LARGEST_PRINTED < n {
        return refuse(out, Refusal::Length);
    }
    if checks::words_wrong(site.words, n) {
        return refuse(out, Refusal::Words);
    }
    if checks::codes_wrong(site.words, table, n) {
        return refuse(out, Refusal::Code);
    }
    print_checked_table(site, out, table, n)
}

// Stores what the site printer prints of a text; the number of bytes.
// A list of 49,152 bytes is long enough for every text. A byte past the list's end is counted and not stored.
pub fn print_site(text: &[u8], out: &mut [u8]) -> usize
    ensures { Put out.old 0 (printed text.now) out.new result }
{
    if MOST_BYTES < text.len() {
        return refuse(out, Refusal::Form);
    }
    let mut list: [u32; READ_NUMBERS] = [0; READ_NUMBERS];
    let Ok(site) = read(text, &mut list) else {
        return refuse(out, Refusal::Form);
    };
    check_and_print(&site, out, &list[0..3 * site.count])
}
