// Saturation: the ten rules written out, over all pairs of triples, until nothing is new.
#![tactic(auto)]

use naive_checks::Site;
use naive_lists::{Refusal, Triple, Words, add, sort, triple_at, triples_of};

// Rule 1: a domain c, s a o gives s type c.
fn rdfs2(words: Words, first: Triple, second: Triple) -> Option<Triple> {
    (first.property == words.domain && second.property == first.subject).then_some(Triple::new(
        second.subject,
        words.instance,
        first.object,
    ))
}

// Rule 2: a range c, s a o gives o type c.
fn rdfs3(words: Words, first: Triple, second: Triple) -> Option<Triple> {
    (first.property == words.range && second.property == first.subject).then_some(Triple::new(
        second.object,
        words.instance,
        first.object,
    ))
}

// Rule 4: a subproperty b, s a o gives s b o.
fn rdfs7(words: Words, first: Triple, second: Triple) -> Option<Triple> {
    (first.property == words.subproperty && second.property == first.subject).then_some(Triple::new(
        second.subject,
        first.object,
        second.object,
    ))
}

// Rule 5: c subclass d, s type c gives s type d.
fn rdfs9(words: Words, first: Triple, second: Triple) -> Option<Triple> {
    (first.property == words.subclass
        && second.property == words.instance
        && second.object == first.subject).then_some(Triple::new(
        second.subject,
        words.instance,
        first.object,
    ))
}

// The other rules have one form: a p b, b q c gives a r c.
fn chain(first: Triple, second: Triple, p: u32, q: u32, r: u32) -> Option<Triple> {
    (first.property == p && second.property == q && second.subject == first.object).then_some(
        Triple::new(first.subject, r, second.object),
    )
}

// Adds what a rule gives, if it gives something; how many triples there are then.
fn add_some(list: &mut [u32], count: usize, given: Option<Triple>) -> Result<usize, Refusal> {
    match given {
        Some(t) => add(list, count, t),
        None => Ok(count),
    }
}

// Adds what a first and a second triple give by each rule.
fn apply(
    words: Words,
    list: &mut [u32],
    count: usize,
    first: Triple,
    second: Triple,
) -> Result<usize, Refusal> {
    let subclass = words.subclass;
    let subproperty = words.subproperty;
    let domain = words.domain;
    let range = words.range;
    let mut all = add_some(list, count, rdfs2(words, first, second))?;
    all = add_some(list, all, rdfs3(words, first, second))?;
    all = add_some(list, all, rdfs7(words, first, second))?;
    all = add_some(list, all, rdfs9(words, first, second))?;
    // Rule 3: a subproperty b, b subproperty c gives a subproperty c. Rule 6: the same with subclass.
    all = add_some(
        list,
        all,
        chain(first, second, subproperty, subproperty, subproperty),
    )?;
    all = add_some(
        list,
        all,
        chain(first, second, subclass, subclass, subclass),
    )?;
    // Rule 7: a subproperty b, b domain c gives a domain c. Rule 9: a domain c, c subclass d gives a domain d.
    all = add_some(list, all, chain(first, second, subproperty, domain, domain))?;
    all = add_some(list, all, chain(first, second, domain, subclass, domain))?;
    // Rule 8: a subproperty b, b range c gives a range c. Rule 10: a range c, c subclass d gives a range d.
    all = add_some(list, all, chain(first, second, subproperty, range, range))?;
    add_some(list, all, chain(first, second, range, subclass, range))
}

// One round over all pairs of the first `count` triples; how many there are then.
fn round(words: Words, list: &mut [u32], count: usize) -> Result<usize, Refusal> {
    let mut all = count;
    for i in 0..count {
        for j in 0..count {
            let first = triple_at(list, i);
            let second = triple_at(list, j);
            all = apply(words, list, all, first, second)?;
        }
    }
    Ok(all)
}

// Rounds until one adds nothing. Each of the others fills a slot, so there are no more of them than slots.
fn close(words: Words, list: &mut [u32], given: usize) -> Result<usize, Refusal> {
    let mut count = given;
    for _ in 0..=list.len() / 3 {
        let before = count;
        count = round(words, list, before)?;
        if count == before {
            break;
        }
    }
    Ok(count)
}

// The triples of the table, each once, and what follows from them.
fn saturation(site: Site, res: &mut [u32]) -> Result<usize, Refusal> {
    let given = triples_of(site.table).try_fold(0, |count, t| add(res, count, t))?;
    close(site.words, res, given)
}

pub fn saturate(site: Site, res: &mut [u32]) -> Result<usize, Refusal> {
    site.check(false)?;
    res.fill(0);
    let answer = saturation(site, res);
    match answer {
        Ok(count) => sort(res, count),
        Err(_) => res.fill(0),
    }
    answer
}
