// The reader of the site form: queries, lines that follow one another, and the call `read`.
#![tactic(auto)]

ghost use Rattle.std.specs.Prelude.{◌≡◌, ◌<◌, []};
ghost use Rattle.site_form.specs.Reading.{ask_reader, query_of, queries_of, site_of, no_forms, answered, site_in};
ghost use Rattle.site_tokens.specs.Steps.{step, mapped};
ghost use Rattle.site_reader.specs.Queries.{with_pattern, PatternsFrom, AsksFrom};
ghost use Rattle.site_reader.specs.Calls.{WordsFrom, stored, LinesFrom, FormsRead, ReadCall};

use model::{Refusal, Triple, Vocabulary};
use query::{Pattern, Query, blank_pattern};
use site_form::{MOST_ASKS, MOST_LINES, Site};
use site_parts::{next_pattern, site_line, triple_line, words_line};
use site_tokens::{Read, line_end, text_end, word};

// A query without patterns.
fn blank_query() -> Query
    ensures { result ≡ query_of [] }
{
    let patterns = [blank_pattern(); 8];
    Query { patterns, count: 0 }
}

// The site of no text: N is 0, there are no triples and no queries, and the reserved codes are 0 to 4.
pub fn no_site() -> Site
    ensures { result ≡ site_of no_forms }
{
    let queries = [blank_query(); MOST_ASKS];
    Site {
        size: 0,
        words: lists::rdfs_words(),
        count: 0,
        asks: 0,
        queries,
    }
}

// The query with one pattern more.
fn with_pattern(query: Query, pattern: Pattern) -> Query
    requires { query.count < 8 }
    ensures { result ≡ with_pattern query pattern }
{
    let mut longer = query;
    longer.patterns[query.count as usize] = pattern;
    longer.count += 1;
    longer
}

// A query of its first pattern and those that follow, up to seven.
fn more_patterns(text: &[u8], at: usize, first: Pattern) -> Read<Query>
    ensures { PatternsFrom text.now at first result }
{
    let mut value = with_pattern(blank_query(), first);
    let mut next = at;
    while value.count < 8 {
        let Some(more) = next_pattern(text, next) else {
            return Read { value, next };
        };
        value = with_pattern(value, more.value);
        next = more.next;
    }
    Read { value, next }
}

// A line `(ask PATTERN ...)`.
#[tactic(auto, using(crate::proofs::Queries::ask_parts))]
fn ask_line(text: &[u8], at: usize) -> Option<Read<Query>>
    ensures { step result ≡ mapped query_of (ask_reader text.now at) }
{
    let opening = word(text, at, b"(ask")?;
    let first = next_pattern(text, opening)?;
    let query = more_patterns(text, first.next, first.value);
    let next = line_end(text, query.next)?;
    Some(Read {
        value: query.value,
        next,
    })
}

// The lines of queries that follow one another, up to 16: how many they are. The queries stand in the lent list, which is blank before.
fn ask_lines(text: &[u8], at: usize, queries: &mut [Query]) -> Read<usize>
    requires { queries.old ≡ queries_of [] }
    ensures { AsksFrom text.now at result queries.new }
{
    let mut next = at;
    for count in 0..MOST_ASKS {
        let Some(line) = ask_line(text, next) else {
            return Read { value: count, next };
        };
        queries[count] = line.value;
        next = line.next;
    }
    Read {
        value: MOST_ASKS,
        next,
    }
}

// The reserved codes: those of the line that stands here, or else 0 to 4.
fn some_words(text: &[u8], at: usize) -> Read<Vocabulary>
    ensures { WordsFrom text.now at result }
{
    words_line(text, at).unwrap_or(Read {
        value: lists::rdfs_words(),
        next: at,
    })
}

// Stores a triple at place i if the list has that slot.
fn store(list: &mut [u32], i: usize, t: Triple)
    ensures { list.new ≡ stored list.old i t }
{
    if i < list.len() / 3 {
        lists::put(list, i, t);
    }
}

// The lines of triples that follow one another, up to 1,000: how many they are. Those past the list's slots are counted and not stored.
fn triple_lines(text: &[u8], at: usize, list: &mut [u32]) -> Read<usize>
    ensures { LinesFrom text.now at list.old result list.new }
{
    let mut next = at;
    for count in 0..MOST_LINES {
        let Some(line) = triple_line(text, next) else {
            return Read { value: count, next };
        };
        store(list, count, line.value);
        next = line.next;
    }
    Read {
        value: MOST_LINES,
        next,
    }
}

// Reads the forms of a text, its triples into the list; of what a refusal leaves there only the length is known.
fn read_forms(text: &[u8], list: &mut [u32]) -> Result<Site, Refusal>
    ensures { FormsRead text.now list.old result list.new }
{
    let size = site_line(text, 0).ok_or(Refusal::Form)?;
    let words = some_words(text, size.next);
    let lines = triple_lines(text, words.next, list);
    let mut queries = [blank_query(); MOST_ASKS];
    let asks = ask_lines(text, lines.next, &mut queries);
    text_end(text, asks.next).ok_or(Refusal::Form)?; // bytes behind the last form
    let n = list.len();
    if n / 3 < lines.value {
        return Err(Refusal::Slots);
    }
    lists::clear(list, 3 * lines.value, n);
    Ok(Site {
        size: size.value,
        words: words.value,
        count: lines.value,
        asks: asks.value,
        queries,
    })
}

// Reads a text of the site form. Its triples go to the list, repeats too, with zeros behind them.
// Refused with 8 where the text is not in the site form, then with 5 where the list has too few slots; the list is then zero.
pub fn read(text: &[u8], list: &mut [u32]) -> Result<Site, Refusal>
    ensures { ReadCall text.now list.old result list.new }
{
    let answer = read_forms(text, list);
    if answer.is_err() {
        list.fill(0);
    }
    answer
}

// The site of an answer: where it is a refusal, that of no text.
pub fn site_in(answer: Result<Site, Refusal>) -> Site
    ensures { result ≡ site_in (answered answer) }
{
    match answer {
        Ok(site) => site,
        Err(_) => no_site(),
    }
}
