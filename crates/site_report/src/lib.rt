// The lines that the printer puts out: refusals, the summary's count, pairs of code and representative, answers.
#![tactic(auto)]

ghost use Rattle.std.specs.Prelude.{◌<◌, ◌≤◌, length};
ghost use Rattle.model.specs.Lists.{collect};
ghost use Rattle.model.specs.Outcomes.{refused, accepted, refusal_number};
ghost use Rattle.query.specs.Ask.{asked, says_maybe};
ghost use Rattle.site_form.specs.Text.{most_asks};
ghost use Rattle.site_form.specs.Printing.{refused_line, summary_line, pair_line, node_line, node_lines, answer_line};
ghost use Rattle.site_bytes.specs.Calls.{HasRoom, Wrote};
ghost use Rattle.site_report.specs.Lines.{answers_in};

use lists::{Code, narrow};
use model::Refusal;
use query::{Asked, is_retired};
use site_bytes::Page;
use site_form::MOST_ASKS;

// Puts the line `(refused R)`.
pub fn put_refused(page: &mut Page, n: u32)
    requires { HasRoom page.old (refused_line n) }
    ensures { Wrote page.old (refused_line n) page.new }
{
    page.put_after(b"(refused ", n);
    page.put(b")\n");
}

// Puts the line `(summary COUNT)`.
pub fn put_summary(page: &mut Page, count: u32)
    requires { HasRoom page.old (summary_line count) }
    ensures { Wrote page.old (summary_line count) page.new }
{
    page.put_after(b"(summary ", count);
    page.put(b")\n");
}

// Puts the line `(rep CODE REPRESENTATIVE)`.
fn put_pair(page: &mut Page, code: u32, representative: u32)
    requires { HasRoom page.old (pair_line code representative) }
    ensures { Wrote page.old (pair_line code representative) page.new }
{
    page.put_after(b"(rep ", code);
    page.put_after(b" ", representative);
    page.put(b")\n");
}

// Puts the line of a node; nothing for a code that is no node.
fn put_node(page: &mut Page, map: &[u32], i: usize)
    requires { (i < length map.now) × (i ≤ 65536) × HasRoom page.old (node_line map.now i) }
    ensures { Wrote page.old (node_line map.now i) page.new }
{
    let representative = map[i];
    if !Code(representative).is_absent() {
        put_pair(page, narrow(i), representative);
    }
}

// Puts a line for each node, in rising order.
pub fn put_nodes(page: &mut Page, map: &[u32])
    requires { (length map.now ≤ 65536) × HasRoom page.old (node_lines map.now) }
    ensures { Wrote page.old (node_lines map.now) page.new }
{
    for i in 0..map.len() {
        put_node(page, map, i);
    }
}

// Puts the line of a refused query: one line for a retired one, nothing for a wrong one.
fn put_refused_query(page: &mut Page, refusal: Refusal)
    requires { HasRoom page.old (answer_line (refused (refusal_number refusal))) }
    ensures { Wrote page.old (answer_line (refused (refusal_number refusal))) page.new }
{
    if is_retired(refusal) {
        page.put(b"(ask retired)\n");
    }
}

// Puts the line of an answer that is not refused.
#[tactic(auto, unfolding(site_form::specs::Printing::answer_line, query::specs::Ask::says_maybe))]
fn put_said(page: &mut Page, said: Asked)
    requires { HasRoom page.old (answer_line (accepted (says_maybe said))) }
    ensures { Wrote page.old (answer_line (accepted (says_maybe said))) page.new }
{
    match said {
        Asked::Maybe => page.put(b"(ask maybe)\n"),
        Asked::None => page.put(b"(ask none)\n"),
    }
}

// Puts the line of an answer.
#[tactic(auto, unfolding(model::specs::Outcomes::outcome_by))]
fn put_answer(page: &mut Page, answer: Result<Asked, Refusal>)
    requires { HasRoom page.old (answer_line (asked answer)) }
    ensures { Wrote page.old (answer_line (asked answer)) page.new }
{
    match answer {
        Ok(said) => put_said(page, said),
        Err(r) => put_refused_query(page, r),
    }
}

// Puts a line for each of the first `count` answers.
pub fn put_answers(page: &mut Page, answers: [Result<Asked, Refusal>; MOST_ASKS], count: usize)
    requires { (count ≤ most_asks) × HasRoom page.old (collect answer_line (answers_in answers count)) }
    ensures { Wrote page.old (collect answer_line (answers_in answers count)) page.new }
{
    for i in 0..count {
        put_answer(page, answers[i]);
    }
}
