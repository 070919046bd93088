// What is printed of a saturated table: its summary, the map and the answers, or a refusal.
#![tactic(auto)]

ghost use Rattle.std.specs.Prelude.{◌≡◌, ◌*◌, ◌≤◌, length};
ghost use Rattle.model.specs.Lists.{any};
ghost use Rattle.model.specs.Outcomes.{refused, refusal_number};
ghost use Rattle.model.specs.Triples.{triples};
ghost use Rattle.query.specs.Ask.{asked};
ghost use Rattle.site_form.specs.Text.{most_asks};
ghost use Rattle.site_form.specs.Printing.{largest_printed, printer_slots, shown, is_wrong, report};
ghost use Rattle.site_bytes.specs.Calls.{Room, Put};
ghost use Rattle.site_report.specs.Lines.{answers_in};
ghost use Rattle.table_printing.specs.Outcomes.{asked_of, asks_outcome, summary_outcome, saturation_outcome, Whole, CheckedTable};

use ask::ask;
use lists::narrow;
use model::{Refusal, refusal_number};
use query::{Asked, is_retired};
use roster::own_roster;
use saturate::saturate;
use site_bytes::Page;
use site_form::{LARGEST_PRINTED, MOST_ASKS, PRINTER_SLOTS, Site};
use site_report::{put_answers, put_nodes, put_refused, put_summary};
use site_writer::put_triples;
use summarise::summarise;

// How many numbers the lists have: for the triples of a saturation or a summary, and for the work list.
pub const RESULT_NUMBERS: usize = 3 * PRINTER_SLOTS;

const WORK_NUMBERS: usize = 2 * LARGEST_PRINTED;

// Stores the line of a refusal as all that is printed.
pub fn refuse(out: &mut [u8], refusal: Refusal) -> usize
    ensures { Put out.old 0 (shown (refused (refusal_number refusal))) out.new result }
{
    let mut page = Page::new(out);
    put_refused(&mut page, refusal_number(refusal));
    page.at
}

// Whether a query was refused, and not because it is retired.
#[tactic(auto, unfolding(model::specs::Outcomes::outcome_by))]
fn is_wrong(answer: Result<Asked, Refusal>) -> bool
    ensures { result ≡ is_wrong (asked answer) }
{
    match answer {
        Ok(_) => false,
        Err(r) => !is_retired(r),
    }
}

// Whether one of the first `count` queries is wrong.
fn any_wrong(answers: [Result<Asked, Refusal>; MOST_ASKS], count: usize) -> bool
    requires { count ≤ most_asks }
    ensures { result ≡ any is_wrong (answers_in answers count) }
{
    for i in 0..count {
        if is_wrong(answers[i]) {
            return true;
        }
    }
    false
}

// The answers to the queries of a site.
fn ask_all(site: &Site, table: &[u32], map: &[u32]) -> [Result<Asked, Refusal>; MOST_ASKS]
    requires { site.now.asks ≤ most_asks }
    ensures { answers_in result site.now.asks ≡ asked_of site.now.words table.now map.now site.now.queries site.now.asks }
{
    let mut answers = [Ok(Asked::Maybe); MOST_ASKS];
    for i in 0..site.asks {
        answers[i] = ask(site.words, table, map, site.queries[i]);
    }
    answers
}

// Stores the report of a summary, its map and the answers.
fn put_report(
    out: &mut [u8],
    table: &[u32],
    map: &[u32],
    answers: [Result<Asked, Refusal>; MOST_ASKS],
    count: usize,
) -> usize
    requires { (count ≤ most_asks) × (length table.now ≤ 3 * printer_slots) × (length map.now ≤ largest_printed) × Room 0 (report (triples table.now) map.now (answers_in answers count)) }
    ensures { Put out.old 0 (report (triples table.now) map.now (answers_in answers count)) out.new result }
{
    let mut page = Page::new(out);
    put_summary(&mut page, narrow(table.len() / 3));
    put_triples(&mut page, table);
    put_nodes(&mut page, map);
    put_answers(&mut page, answers, count);
    page.at
}

// Asks the queries of a summary and its map: 6 where one is wrong, else the report.
fn ask_and_print(site: &Site, out: &mut [u8], table: &[u32], map: &[u32]) -> usize
    requires { (site.now.asks ≤ most_asks) × (length table.now ≤ 3 * printer_slots) × (length map.now ≤ largest_printed) × Room 0 (report (triples table.now) map.now (asked_of site.now.words table.now map.now site.now.queries site.now.asks)) }
    ensures { Put out.old 0 (shown (asks_outcome (triples table.now) map.now (asked_of site.now.words table.now map.now site.now.queries site.now.asks))) out.new result }
{
    let answers = ask_all(site, table, map);
    if any_wrong(answers, site.asks) {
        return refuse(out, Refusal::Query);
    }
    put_report(out, table, map, answers, site.asks)
}

// Summarises a saturated table into lent lists, then asks and prints.
fn summarise_and_print(
    site: &Site,
    out: &mut [u8],
    table: &[u32],
    roster: &[u8],
    res: &mut [u32],
    map: &mut [u32],
    work: &mut [u32],
) -> usize
    requires { (site.now.asks ≤ most_asks) × Whole site.now.words table.now roster.now × (length res.old ≡ 3 * printer_slots) × (length map.old ≡ length roster.now) × (length work.old ≡ 2 * length roster.now) }
    ensures { Put out.old 0 (shown (summary_outcome site.now.words roster.now (triples table.now) site.now.queries site.now.asks)) out.new result }
{
    let Ok(k) = summarise(site.words, table, roster, res, map, work) else {
        return refuse(out, Refusal::Slots); // cannot be: the summary has no more triples than the table
    };
    ask_and_print(site, out, &res[0..3 * k], map)
}

// Prints the summary of a saturated table: makes the lists that it is summarised into.
fn print_saturated_table(site: &Site, out: &mut [u8], table: &[u32], roster: &[u8]) -> usize
    requires { (site.now.asks ≤ most_asks) × Whole site.now.words table.now roster.now }
    ensures { Put out.old 0 (shown (summary_outcome site.now.words roster.now (triples table.now) site.now.queries site.now.asks)) out.new result }
{
    let n = roster.len();
    let mut result: [u32; RESULT_NUMBERS] = [0; RESULT_NUMBERS];
    let mut map: [u32; LARGEST_PRINTED] = [0; LARGEST_PRINTED];
    let mut work: [u32; WORK_NUMBERS] = [0; WORK_NUMBERS];
    summarise_and_print(
        site,
        out,
        table,
        roster,
        &mut result,
        &mut map[0..n],
        &mut work[0..2 * n],
    )
}

// Saturates a checked table with its own roster in lent lists, then prints the summary of its saturation.
pub fn saturate_and_print(
    site: &Site,
    out: &mut [u8],
    table: &[u32],
    roster: &mut [u8],
    list: &mut [u32],
) -> usize
    requires { (site.now.asks ≤ most_asks) × CheckedTable site.now.words table.now (length roster.old) × (length list.old ≡ 3 * printer_slots) }
    ensures { Put out.old 0 (shown (saturation_outcome site.now.words (length roster.old) (triples table.now) site.now.queries site.now.asks)) out.new result }
{
    let _ = own_roster(site.words, table, roster); // a checked table has one
    let Ok(k) = saturate(site.words, table, roster, list) else {
        return refuse(out, Refusal::Slots);
    };
    print_saturated_table(site, out, &list[0..3 * k], roster)
}
