// The example of the papers and a chain of three nodes: their summaries, and what the second map holds.
use super::maps::ABSENT;
use super::rework::{QUIET, closure, left_condensed, ship};
use comparison::calls::table_call;
use comparison::engines::{Lengths, Site, after};
use comparison_report::report::{Call, Tally, small};
use lists::rdfs_words;
use random_sites::words::plain_words;
use std::io;

// A small case: a table, the summary of its saturation, and the map when that is summarised again.
#[derive(Clone, Copy)]
struct Case<'a> {
    name: &'a str,
    table: &'a [u32],
    summary: &'a [u32],
    map: &'a [u32],
}

// The six triples.
const SIX: [u32; 18] = [5, 2, 7, 6, 2, 7, 7, 3, 8, 8, 1, 9, 10, 5, 12, 11, 6, 13];

// The 14 of the summary of their saturation, weak and strong.
const SIX_SUMMARY: [u32; 42] = [
    5, 2, 7, 5, 3, 8, 5, 3, 9, 6, 2, 7, 6, 3, 8, 6, 3, 9, 7, 3, 8, 7, 3, 9, 8, 1, 9, 10, 0, 8, 10,
    0, 9, 10, 5, 12, 10, 6, 12, 10, 7, 12,
];

// The second map: 11 and 13 are represented by others.
const SIX_MAP: [u32; 14] = [
    ABSENT, ABSENT, ABSENT, ABSENT, ABSENT, 5, 6, 7, 8, 9, 10, ABSENT, 12, ABSENT,
];

// Two triples; strongly each node is apart, so that they are their strong summary too.
const CHAIN: [u32; 6] = [10, 5, 11, 11, 5, 12];

// Their weak summary: 10 represents all three.
const CHAIN_SUMMARY: [u32; 3] = [10, 5, 10];

const CHAIN_MAP: [u32; 13] = [
    ABSENT, ABSENT, ABSENT, ABSENT, ABSENT, ABSENT, ABSENT, ABSENT, ABSENT, ABSENT, 10, ABSENT,
    ABSENT,
];

const APART_MAP: [u32; 13] = [
    ABSENT, ABSENT, ABSENT, ABSENT, ABSENT, ABSENT, ABSENT, ABSENT, ABSENT, ABSENT, 10, 11, 12,
];

impl Case<'_> {
    // Whether the engine, summarising the summary again, keeps it and leaves the map.
    fn keeps(&self, rt: &impl Print, call: Call, roster: &[u8]) -> io::Result<bool> {
        let n = self.map.len().min(24);
        let site = Site {
            words: rdfs_words(),
            table: self.summary,
            roster,
        };
        let wanted = Lengths {
            result: self.summary.len(),
            first: n,
            second: 2 * n,
        };
        let got = after(rt, QUIET, call, site, wanted)?;
        Ok(got == left_condensed(rt, self.summary, self.map)?)
    }

    // Ships the summary of the saturated table of a site, and checks it and the second map.
    fn ships(
        &self,
        rt: &impl Print,
        tally: &mut Tally,
        call: Call,
        site: Site<'_>,
    ) -> io::Result<()> {
        let mut result = [0u32; 60];
        let numbers = ship(rt, tally, call, 0, site, &mut result)?;
        let wanted = (self.summary.len() / 3).min(100) as u32;
        let came = (numbers / 3).min(100) as u32;
        small(rt, call, self.name.as_bytes(), wanted, came)?;
        let got = left_condensed(rt, &result[..numbers], self.map)?;
        let want = left_condensed(rt, self.summary, self.map)?;
        tally.check(rt, call, 0, self.name, got == want)?;
        let kept = self.keeps(rt, call, site.roster)?;
        tally.check(rt, call, 0, self.name, kept)
    }

    // Saturates the table, with the own roster and as many codes as the map, and ships its summary.
    fn expect(&self, rt: &impl Print, tally: &mut Tally, call: Call) -> io::Result<()> {
        let mut roster = [0u8; 24];
        let mut closed = [0u32; 60];
        let table = self.table;
        let roster = &mut roster[..self.map.len().min(24)];
        let _ = naive_checks::own_roster(plain_words(rdfs_words()), table, roster);
        let site = Site {
            words: rdfs_words(),
            table,
            roster,
        };
        let wanted = Lengths {
            result: 60,
            first: 0,
            second: 0,
        };
        table_call(rt, tally, Call::Saturate, 0, site, wanted)?;
        let end = closure(site, &mut closed);
        let saturated = Site {
            table: &closed[..end],
            ..site
        };
        self.ships(rt, tally, call, saturated)
    }
}

pub fn all(rt: &impl Print, tally: &mut Tally) -> io::Result<()> {
    let six = Case {
        name: "six-again",
        table: &SIX,
        summary: &SIX_SUMMARY,
        map: &SIX_MAP,
    };
    let chain = Case {
        name: "chain-again",
        table: &CHAIN,
        summary: &CHAIN_SUMMARY,
        map: &CHAIN_MAP,
    };
    let apart = Case {
        summary: &CHAIN,
        map: &APART_MAP,
        ..chain
    };
    six.expect(rt, tally, Call::Summarise)?;
    six.expect(rt, tally, Call::Strong)?;
    chain.expect(rt, tally, Call::Summarise)?;
    apart.expect(rt, tally, Call::Strong)
}
