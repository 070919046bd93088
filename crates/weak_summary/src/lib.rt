// The calls of the papers for other languages: numbers and slices only. Each call answers 0 or the number of its refusal;
// what else it gives is stored through the numbers that are lent. A refusal leaves these alone, but for the place, which is 0 then, and
// for 8 and 5 of reading.
#![tactic(auto)]

ghost use Rattle.std.specs.Prelude.{◌≡◌};
ghost use Rattle.model.specs.Triples.{triple};
ghost use Rattle.model.specs.Calls.{look_up_outcome};
ghost use Rattle.intake_opening.specs.Opening.{at_entry, at_exit};
ghost use Rattle.call_numbers.specs.Status.{bit, Reports, StoresPart};
ghost use Rattle.subject_lines.specs.Lines.{subject_part};
ghost use Rattle.weak_summary.specs.Calls.{OwnRosterByWords, SaturateByWords, CliquesByWords, SummariseByWords, SummariseStrongByWords, AskByWords, OpenByWords, FeedByWords, RemoveByWords, WriteByWords, lent, form_status, ReadStatus};

use ask::ask;
use call_numbers::{
    WORDS_NUMBERS, asked_status, counted_status, done_status, found_status, part_status,
    place_status, put_words, refused_status, reply_status, words_of,
};
use cliques::cliques;
use flat_queries::{QUERIES_NUMBERS, QUERY_NUMBERS, put_queries, query_of};
use intake_feeding::feed_lists;
use intake_opening::open_counts;
use intake_removing::remove_lists;
use lists::rdfs_words;
use look_up::look_up;
use model::{Refusal, Triple, refusal_number};
use roster::own_roster;
use saturate::saturate;
use site_reader::read;
use site_writer::write;
use subject_lines::subject_part;
use summarise::summarise;
use summarise_strong::summarise_strong;

#[unsafe(no_mangle)]
pub extern "C" fn ws_own_roster(words: &[u32], table: &[u32], roster: &mut [u8]) -> u32
    ensures { OwnRosterByWords words.now table.now roster.old result roster.new }
{
    if words.len() != WORDS_NUMBERS {
        return refusal_number(Refusal::Length);
    }
    let loaded = words_of(words);
    done_status(own_roster(loaded, table, roster))
}

#[unsafe(no_mangle)]
pub extern "C" fn ws_saturate(
    words: &[u32],
    table: &[u32],
    roster: &[u8],
    res: &mut [u32],
    count: &mut usize,
) -> u32
    ensures { SaturateByWords words.now table.now roster.now res.old count.old result res.new count.new }
{
    if words.len() != WORDS_NUMBERS {
        return refusal_number(Refusal::Length);
    }
    let loaded = words_of(words);
    counted_status(saturate(loaded, table, roster, res), count)
}

#[unsafe(no_mangle)]
pub extern "C" fn ws_cliques(
    words: &[u32],
    table: &[u32],
    roster: &[u8],
    sources: &mut [u32],
    targets: &mut [u32],
) -> u32
    ensures { CliquesByWords words.now table.now roster.now sources.old targets.old result sources.new targets.new }
{
    if words.len() != WORDS_NUMBERS {
        return refusal_number(Refusal::Length);
    }
    let loaded = words_of(words);
    done_status(cliques(loaded, table, roster, sources, targets))
}

#[unsafe(no_mangle)]
pub extern "C" fn ws_summarise(
    words: &[u32],
    table: &[u32],
    roster: &[u8],
    res: &mut [u32],
    map: &mut [u32],
    work: &mut [u32],
    count: &mut usize,
) -> u32
    ensures { SummariseByWords words.now table.now roster.now res.old map.old work.old count.old result res.new map.new work.new count.new }
{
    if words.len() != WORDS_NUMBERS {
        return refusal_number(Refusal::Length);
    }
    let loaded = words_of(words);
    counted_status(summarise(loaded, table, roster, res, map, work), count)
}

#[unsafe(no_mangle)]
pub extern "C" fn ws_summarise_strong(
    words: &[u32],
    table: &[u32],
    roster: &[u8],
    res: &mut [u32],
    map: &mut [u32],
    work: &mut [u32],
    count: &mut usize,
) -> u32
    ensures { SummariseStrongByWords words.now table.now roster.now res.old map.old work.old count.old result res.new map.new work.new count.new }
{
    if words.len() != WORDS_NUMBERS {
        return refusal_number(Refusal::Length);
    }
    let loaded = words_of(words);
    counted_status(
        summarise_strong(loaded, table, roster, res, map, work),
        count,
    )
}

#[unsafe(no_mangle)]
pub extern "C" fn ws_look_up(
    list: &[u32],
    s: u32,
    p: u32,
    o: u32,
    found: &mut u32,
    place: &mut usize,
) -> u32
    ensures { Reports bit (look_up_outcome list.now (triple s p o)) found.old result found.new place.new }
{
    let t = Triple {
        subject: s,
        property: p,
        object: o,
    };
    found_status(look_up(list, t), found, place)
}

#[unsafe(no_mangle)]
pub extern "C" fn ws_subject_lines(
    code: u32,
    summary: &[u32],
    table: &[u32],
    map: &[u32],
    own: &mut u32,
    start: &mut usize,
    count: &mut usize,
) -> u32
    ensures { StoresPart (subject_part code summary.now table.now map.now) result own.new start.new count.new }
{
    part_status(subject_part(code, summary, table, map), own, start, count)
}

#[unsafe(no_mangle)]
pub extern "C" fn ws_ask(
    words: &[u32],
    table: &[u32],
    map: &[u32],
    query: &[u32],
    maybe: &mut u32,
) -> u32
    ensures { AskByWords words.now table.now map.now query.now maybe.old result maybe.new }
{
    if words.len() != WORDS_NUMBERS {
        return refusal_number(Refusal::Length);
    }
    let loaded = words_of(words);
    if query.len() != QUERY_NUMBERS {
        return refusal_number(Refusal::Length);
    }
    asked_status(ask(loaded, table, map, query_of(query)), maybe)
}

#[unsafe(no_mangle)]
pub extern "C" fn ws_open(
    words: &[u32],
    roster: &[u8],
    triples: &mut [u32],
    summary: &mut [u32],
    weights: &mut [u32],
    map: &mut [u32],
    held: &mut usize,
    summarised: &mut usize,
) -> u32
    ensures { OpenByWords words.now roster.now
        (at_entry triples summary weights map held.old summarised.old)
        result
        (at_exit triples summary weights map held.new summarised.new) }
{
    if words.len() != WORDS_NUMBERS {
        return refusal_number(Refusal::Length);
    }
    let loaded = words_of(words);
    let opened = open_counts(
        *held,
        *summarised,
        loaded,
        roster,
        triples,
        summary,
        weights,
        map,
    );
    let answer = opened.answer;
    *held = opened.counts.held;
    *summarised = opened.counts.summarised;
    done_status(answer)
}

#[unsafe(no_mangle)]
pub extern "C" fn ws_feed(
    words: &[u32],
    roster: &[u8],
    triples: &mut [u32],
    summary: &mut [u32],
    weights: &mut [u32],
    map: &mut [u32],
    work: &mut [u32],
    s: u32,
    p: u32,
    o: u32,
    held: &mut usize,
    summarised: &mut usize,
    new: &mut u32,
    place: &mut usize,
) -> u32
    ensures { FeedByWords words.now roster.now
        (at_entry triples summary weights map held.old summarised.old) work.old new.old
        (triple s p o) result
        (at_exit triples summary weights map held.new summarised.new) work.new new.new place.new }
{
    if words.len() != WORDS_NUMBERS {
        return refused_status(Refusal::Length, place);
    }
    let loaded = words_of(words);
    let fed = feed_lists(
        *held,
        *summarised,
        loaded,
        roster,
        triples,
        summary,
        weights,
        map,
        work,
        s,
        p,
        o,
    );
    let answer = fed.answer;
    *held = fed.counts.held;
    *summarised = fed.counts.summarised;
    reply_status(answer, new, place)
}

#[unsafe(no_mangle)]
pub extern "C" fn ws_remove(
    words: &[u32],
    roster: &[u8],
    triples: &mut [u32],
    summary: &mut [u32],
    weights: &mut [u32],
    map: &mut [u32],
    work: &mut [u32],
    s: u32,
    p: u32,
    o: u32,
    held: &mut usize,
    summarised: &mut usize,
    place: &mut usize,
) -> u32
    ensures { RemoveByWords words.now roster.now
        (at_entry triples summary weights map held.old summarised.old) work.old
        (triple s p o) result
        (at_exit triples summary weights map held.new summarised.new) work.new place.new }
{
    if words.len() != WORDS_NUMBERS {
        return refused_status(Refusal::Length, place);
    }
    let loaded = words_of(words);
    let removed = remove_lists(
        *held,
        *summarised,
        loaded,
        roster,
        triples,
        summary,
        weights,
        map,
        work,
        s,
        p,
        o,
    );
    let answer = removed.answer;
    *held = removed.counts.held;
    *summarised = removed.counts.summarised;
    place_status(answer, place)
}

#[unsafe(no_mangle)]
pub extern "C" fn ws_write(
    words: &[u32],
    n: u32,
    table: &[u32],
    out: &mut [u8],
    count: &mut usize,
) -> u32
    ensures { WriteByWords words.now n table.now out.old count.old result out.new count.new }
{
    if words.len() != WORDS_NUMBERS {
        return refusal_number(Refusal::Length);
    }
    let loaded = words_of(words);
    counted_status(write(loaded, n, table, out), count)
}

// Reads a text: its triples into the list, its queries into 16 flat ones, its reserved codes into five numbers, and N, the number of
// triples and that of queries. Refused with 1 where there are not 656 numbers for the queries or not 5 for the codes. A query past those
// of the text, and all that is lent after 8 and 5, is zero; the codes are then 0 to 4.
#[unsafe(no_mangle)]
pub extern "C" fn ws_read(
    text: &[u8],
    list: &mut [u32],
    queries: &mut [u32],
    words: &mut [u32],
    n: &mut u32,
    count: &mut usize,
    asks: &mut usize,
) -> u32
    ensures { ReadStatus text.now (lent list.old queries.old words.old n.old count.old asks.old) result (lent list.new queries.new words.new n.new count.new asks.new) }
{
    if queries.len() != QUERIES_NUMBERS {
        return refusal_number(Refusal::Length);
    }
    if words.len() != WORDS_NUMBERS {
        return refusal_number(Refusal::Length);
    }
    let answer = read(text, list);
    match &answer {
        Ok(site) => {
            *n = site.size;
            *count = site.count;
            *asks = site.asks;
            put_queries(queries, site.queries);
            put_words(words, site.words);
            0
        }
        Err(refusal) => {
            *n = 0;
            *count = 0;
            *asks = 0;
            queries.fill(0);
            put_words(words, rdfs_words());
            refusal_number(*refusal)
        }
    }
}
