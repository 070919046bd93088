// Asks the summary and map of the papers' example its two queries, shows each refusal of ask, and asks a large table.
#![tactic(auto)]

use lists::Code;
use model::{Refusal, Vocabulary, refusal_number};
use query::{Asked, End, Pattern, Query, blank_pattern};
use std::io;

// The summary of the saturated example.
const SUMMARY: [u32; 42] = [
    5, 2, 7, 5, 3, 8, 5, 3, 9, 6, 2, 7, 6, 3, 8, 6, 3, 9, 7, 3, 8, 7, 3, 9, 8, 1, 9, 10, 0, 8, 10,
    0, 9, 10, 5, 12, 10, 6, 12, 10, 7, 12,
];

fn show(rt: &impl Print, a: Result<Asked, Refusal>) -> io::Result<()> {
    match a {
        Ok(Asked::Maybe) => println!(rt; "(ask maybe)"),
        Ok(Asked::None) => println!(rt; "(ask none)"),
        Err(r) => println!(rt; "(refused {})", refusal_number(r)),
    }
}

// The reserved codes 0 to 3 and one more.
fn words(range: u32) -> Vocabulary {
    Vocabulary {
        instance: 0,
        subclass: 1,
        subproperty: 2,
        domain: 3,
        range,
    }
}

fn vars(s: u32, p: u32, o: u32) -> Pattern {
    Pattern {
        subject: End::Var(s),
        property: p,
        object: End::Var(o),
    }
}

// A query of two patterns, of which `count` are counted.
fn pair(a: Pattern, b: Pattern, count: u32) -> Query {
    let z = blank_pattern();
    Query {
        patterns: [a, b, z, z, z, z, z, z],
        count,
    }
}

fn example(rt: &impl Print) -> io::Result<()> {
    let a = Code::ABSENT;
    let map: [u32; 14] = [a, a, a, a, a, 5, 6, 7, 8, 9, 10, 10, 12, 12];
    let queries = [
        pair(vars(0, 5, 1), vars(0, 6, 2), 2),
        pair(vars(0, 7, 1), vars(1, 7, 2), 2),
    ];
    for query in queries {
        show(rt, ask::ask(words(4), &SUMMARY, &map, query))?;
    }
    Ok(())
}

// A map that is too short, a word table with a code twice, one with a code that is too large, a reserved code as an object, a query
// without patterns, one for schema triples with a variable that is too large, one for schema triples.
fn refusals(rt: &impl Print) -> io::Result<()> {
    let four = [0u32; 4];
    let five = [0u32; 5];
    let table = [5u32, 5, 0];
    let empty = pair(vars(0, 1, 1), vars(0, 1, 1), 0);
    let wrong = pair(vars(8, 1, 1), vars(0, 1, 1), 1);
    let retired = pair(vars(0, 1, 1), vars(8, 1, 1), 1);
    show(rt, ask::ask(words(4), &table, &four, wrong))?;
    show(rt, ask::ask(words(3), &table, &five, wrong))?;
    show(rt, ask::ask(words(5), &table, &five, wrong))?;
    show(rt, ask::ask(words(4), &table, &five, wrong))?;
    show(rt, ask::ask(words(4), &[], &five, empty))?;
    show(rt, ask::ask(words(4), &[], &five, wrong))?;
    show(rt, ask::ask(words(4), &[], &five, retired))
}

// 100,000 triples 5 5 5, of which none has the object 6.
fn large(rt: &impl Print) -> io::Result<()> {
    let table = [5u32; 300000];
    let map: [u32; 7] = [0, 1, 2, 3, 4, 5, 6];
    let p = Pattern {
        subject: End::Var(0),
        property: 5,
        object: End::Code(6),
    };
    show(rt, ask::ask(words(4), &table, &map, pair(p, p, 1)))
}

fn main(rt: HostRuntime) -> io::Result<()> {
    example(&rt)?;
    refusals(&rt)?;
    large(&rt)
}
