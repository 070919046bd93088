// Runs the texts of standard input through the reader and the printer, and writes what came out of each.
// A text ends before a byte `%`, which stands in no text; the line end after it is passed over.
#![tactic(auto)]

ghost use Rattle.std.specs.Prelude.{◌<◌};

use model::{Vocabulary, refusal_number};
use printer::print_site;
use query::{End, Pattern, Query};
use read_full::read_full;
use site_form::Site;
use site_reader::{read, site_in};
use std::io;

// The most triples that are shown of a text.
const SHOWN: usize = 4;

fn long(x: u32) -> u64
    ensures { result < 4294967296 }
{
    x as u64
}

// The list as one number, place after place: another order, a lost repeat or a number past the triples
// gives, but for chance, another one.
fn digest(list: &[u32]) -> u64 {
    let mut sum = 0u64;
    for number in list {
        sum = (31 * sum + u64::from(*number)) % 1000003;
    }
    sum
}

// The first triples of the list, so far as it has slots.
fn show_triples(rt: &impl Print, list: &[u32], count: usize) -> io::Result<()> {
    for t in list.chunks_exact(3).take(count.min(SHOWN)) {
        if let [s, p, o] = t {
            println!(rt; "(t {s} {p} {o})")?;
        }
    }
    Ok(())
}

fn show_end(rt: &impl Print, e: End) -> io::Result<()> {
    match e {
        End::Var(v) => print!(rt; "(v {v})"),
        End::Code(c) => print!(rt; "(c {c})"),
    }
}

fn show_pattern(rt: &impl Print, p: Pattern) -> io::Result<()> {
    print!(rt; " (")?;
    show_end(rt, p.subject)?;
    print!(rt; " {} ", p.property)?;
    show_end(rt, p.object)?;
    print!(rt; ")")
}

// A query with its count and all its eight patterns.
fn show_query(rt: &impl Print, q: Query) -> io::Result<()> {
    print!(rt; "(query {}", q.count)?;
    for p in q.patterns {
        show_pattern(rt, p)?;
    }
    println!(rt; ")")
}

// The queries of a site.
fn show_queries(rt: &impl Print, site: Site) -> io::Result<()> {
    for q in site.queries.iter().take(site.asks) {
        show_query(rt, *q)?;
    }
    Ok(())
}

// Whether these are the codes that hold where a text has no line for them.
fn are_rdfs(words: Vocabulary) -> bool {
    words.instance == 0
        && words.subclass == 1
        && words.subproperty == 2
        && words.domain == 3
        && words.range == 4
}

// The reserved codes, if they are not 0 to 4.
fn show_words(rt: &impl Print, words: Vocabulary) -> io::Result<()> {
    if are_rdfs(words) {
        return Ok(());
    }
    let Vocabulary {
        instance,
        subclass,
        subproperty,
        domain,
        range,
    } = words;
    println!(rt; "(words {instance} {subclass} {subproperty} {domain} {range})")
}

// Reads a text into a list; shows the answer, N, the numbers of triples and queries, the list's digest, the reserved codes, the first
// triples and the queries.
fn show_read(rt: &impl Print, text: &[u8], list: &mut [u32]) -> io::Result<()> {
    let answer = read(text, list);
    let site = site_in(answer);
    let refused = match answer {
        Ok(_) => 0,
        Err(refusal) => long(refusal_number(refusal)),
    };
    let Site {
        size,
        count,
        asks,
        ..
    } = site;
    println!(rt; "(read {refused} {size} {count} {asks} {})", digest(list))?;
    show_words(rt, site.words)?;
    show_triples(rt, list, count)?;
    show_queries(rt, site)
}

// Shows what the reader makes of a text with 1,000 slots and with one, and what is printed.
fn show_text(rt: &impl Print, text: &[u8], k: u64) -> io::Result<()> {
    let mut list = [7u32; 3000];
    let mut short = [7u32; 5];
    let mut output = [0u8; 65536];
    println!(rt; "(text {k})")?;
    show_read(rt, text, &mut list)?;
    show_read(rt, text, &mut short)?;
    let count = print_site(text, &mut output);
    if count <= 65536 {
        rt.write_all(&output[0..count])?;
    }
    Ok(())
}

// Shows each text.
fn show_texts(rt: &impl Print, input: &[u8]) -> io::Result<()> {
    let mut rest = input;
    for k in 1..u64::MAX {
        if rest.is_empty() {
            break;
        }
        let end = rest
            .iter()
            .position(|byte| *byte == b'%')
            .unwrap_or(rest.len());
        show_text(rt, &rest[..end], k)?;
        rest = rest.get(end + 2..).unwrap_or(&[]);
    }
    Ok(())
}

fn main(rt: HostRuntime) -> io::Result<()> {
    let mut input = [0u8; 262144];
    let n = read_full(&mut rt.stdin(), &mut input)?;
    show_texts(&rt, &input[0..n])
}
