// All lines of one subject: a part of the summary where the map gives the code itself, else of the table. Nothing is copied, and nothing is
// refused: lists of every length and order are taken, and no code is checked.
#![tactic(auto)]

ghost use Rattle.std.specs.Prelude.{◌≡◌, ◌*◌, ◌≤◌, length};
ghost use Rattle.model.specs.Lists.{First};
ghost use Rattle.lists.specs.Flat.{at};
ghost use Rattle.subject_lines.specs.Lines.{has_subject, other_subject, is_own, part_in, subject_part, Between, HandsBack};

use lists::wide;

// A part of the summary if `own`, else of the table: from index `start` up to before index `end`.
#[derive(Clone, Copy)]
pub struct Part {
    pub own: bool,
    pub start: usize,
    pub end: usize,
}

// The first place before `to` whose triple has the subject, or `to`.
#[tactic(auto, unfolding(crate::specs::Lines::has_subject, lists::specs::Flat::at))]
fn first_line(list: &[u32], code: u32, to: usize) -> usize
    requires { 3 * to ≤ length list.now }
    ensures { First (λ i. has_subject code (at list.now i)) 0 to result }
{
    for i in 0..to {
        if list[3 * i] == code {
            return i;
        }
    }
    to
}

// The first place from..to whose triple has another subject, or `to`.
#[tactic(auto, unfolding(crate::specs::Lines::has_subject, crate::specs::Lines::other_subject, lists::specs::Flat::at))]
fn line_end(list: &[u32], code: u32, from: usize, to: usize) -> usize
    requires { (from ≤ to) × (3 * to ≤ length list.now) }
    ensures { First (λ i. other_subject code (at list.now i)) from to result }
{
    for i in from..to {
        if list[3 * i] != code {
            return i;
        }
    }
    to
}

// The part of a list with the lines of a subject.
fn part_in(list: &[u32], code: u32, own: bool) -> Part
    ensures { result ≡ part_in own code list.now }
{
    let n = list.len() / 3;
    let first = first_line(list, code, n);
    let behind = line_end(list, code, first, n);
    Part {
        own,
        start: 3 * first,
        end: 3 * behind,
    }
}

// Whether the map gives the code itself.
#[tactic(auto, unfolding(crate::specs::Lines::is_own))]
fn is_own(map: &[u32], code: u32) -> bool
    ensures { result ≡ is_own code map.now }
{
    let i = wide(code);
    i < map.len() && map[i] == code
}

// Which list the lines are in, and where.
#[tactic(auto, unfolding(crate::specs::Lines::subject_part))]
pub fn subject_part(code: u32, summary: &[u32], table: &[u32], map: &[u32]) -> Part
    ensures { result ≡ subject_part code summary.now table.now map.now }
{
    if is_own(map, code) {
        return part_in(summary, code, true);
    }
    part_in(table, code, false)
}

// The part of a list from index `start` up to before index `end`.
fn between(list: &[u32], start: usize, end: usize) -> &[u32]
    requires { (start ≤ end) × (end ≤ length list.now) }
    ensures { Between list.entry start end result }
{
    &list[start..end]
}

// The lines themselves, as a part of the list that they are in.
pub fn subject_lines<'a>(code: u32, summary: &'a [u32], table: &'a [u32], map: &[u32]) -> &'a [u32]
    ensures { HandsBack code summary.entry table.entry map.now result }
{
    let part = subject_part(code, summary, table, map);
    if part.own {
        return between(summary, part.start, part.end);
    }
    between(table, part.start, part.end)
}
