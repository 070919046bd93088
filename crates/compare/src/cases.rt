// The small cases, written as a text, which the program reads from its file stdin. A line that begins with # is a comment. Another sets
// what the lines after it work on,
//   WORDS    the five reserved codes; the table is empty then
//   ROSTER   N, then the marks of the first codes, each a digit; the other codes have none
//   TABLE    the numbers of the table
// or is a case: a call, the case's name, the expected answer (15 for yes and maybe), and more numbers.
//   own      own roster
//   derive   saturates: the result's length
//   cliques  0, and the lengths of sources and targets
//   weak     summarises: the lengths of result, map and work list
//   strong   the same strongly
//   every    derive, cliques, weak and strong with lists long enough
//   look     looks up: the expected place, and a triple
//   ask      how many patterns are counted, and patterns from the first on, the others zeros; the map gives each code itself
//   zero     the same with a map that gives each code 0
// Two lines have no expected answer.
//   needs    saturates into just so many numbers, and into one less, which is too few
//   gives    summarises strongly into just these numbers, and into one less, which is too few
// The first letter tells. A number has at most nine digits. What was expected and what came is printed for each case.
use super::queries::identity;
use comparison::calls;
use comparison::calls::{column, table_call};
use comparison::engines::{Lengths, Site, junk};
use comparison_report::report::{Call, Tally, small};
use comparison_report::script::{behind, byte_at, line_end, marks, number, numbers, word_end};
use lists::rdfs_words;
use model::{Triple, Vocabulary};
use random_sites::words::words_at;
use std::io;

// What a case calls.
#[derive(Clone, Copy)]
enum Kind {
    One(Call),
    Every,
    Look,
    AskItself,
    AskZero,
    Needs,
    Gives,
}

// What a line is.
#[derive(Clone, Copy)]
enum Line {
    Comment,
    Words,
    Roster,
    Table,
    Case(Kind),
}

// A line by its first letter.
impl From<u8> for Line {
    fn from(letter: u8) -> Self {
        match letter {
            b'#' => Self::Comment,
            b'R' => Self::Roster,
            b'T' => Self::Table,
            b'l' => Self::Case(Kind::Look),
            b'a' => Self::Case(Kind::AskItself),
            b'z' => Self::Case(Kind::AskZero),
            b'g' => Self::Case(Kind::Gives),
            b'e' => Self::Case(Kind::Every),
            b'n' => Self::Case(Kind::Needs),
            b'o' => Self::Case(Kind::One(Call::OwnRoster)),
            b'd' => Self::Case(Kind::One(Call::Saturate)),
            b'c' => Self::Case(Kind::One(Call::Cliques)),
            b'w' => Self::Case(Kind::One(Call::Summarise)),
            _ if letter < b'a' => Self::Words,
            _ => Self::Case(Kind::One(Call::Strong)),
        }
    }
}

// Whether the engine, summarising strongly into a result that is as long as a list and holds junk, leaves what the list holds.
fn leaves(site: Site<'_>, list: &[u32]) -> bool {
    let Site {
        words,
        table,
        roster,
    } = site;
    let mut space = [0u32; 42];
    let mut map = [0u32; 32];
    let mut work = [0u32; 64];
    let n = roster.len().min(32);
    let result = &mut space[..list.len().min(42)];
    junk(result);
    let _ = summarise_strong::summarise_strong(
        words,
        table,
        roster,
        result,
        &mut map[0..n],
        &mut work[0..2 * n],
    );
    let left: &[u32] = result;
    left == list
}

// A case: the site that it works on, its name, and its numbers, of which so many were given.
#[derive(Clone, Copy)]
struct Case<'a> {
    site: Site<'a>,
    name: &'a [u8],
    row: &'a [u32; 42],
    count: usize,
}

impl Case<'_> {
    // A call with lists of those lengths.
    fn call(
        &self,
        rt: &impl Print,
        tally: &mut Tally,
        call: Call,
        expected: u32,
        wanted: Lengths,
    ) -> io::Result<()> {
        let seen = table_call(rt, tally, call, 0, self.site, wanted)?;
        small(rt, call, self.name, expected, seen.refused)
    }

    // A call with the lengths of the line.
    fn one(&self, rt: &impl Print, tally: &mut Tally, call: Call) -> io::Result<()> {
        let wanted = Lengths {
            result: self.row[1] as usize,
            first: self.row[2] as usize,
            second: self.row[3] as usize,
        };
        self.call(rt, tally, call, self.row[0], wanted)
    }

    fn every(&self, rt: &impl Print, tally: &mut Tally) -> io::Result<()> {
        let n = self.site.roster.len().min(311);
        let expected = self.row[0];
        let sides = Lengths {
            result: 60,
            first: n,
            second: n,
        };
        let wanted = Lengths {
            second: 2 * n,
            ..sides
        };
        self.call(rt, tally, Call::Saturate, expected, sides)?;
        self.call(rt, tally, Call::Cliques, expected, sides)?;
        self.call(rt, tally, Call::Summarise, expected, wanted)?;
        self.call(rt, tally, Call::Strong, expected, wanted)
    }

    // A call into a result of just that length, and into one that is a number shorter.
    fn just(
        &self,
        rt: &impl Print,
        tally: &mut Tally,
        call: Call,
        length: usize,
    ) -> io::Result<()> {
        let n = self.site.roster.len().min(311);
        let wanted = Lengths {
            result: length,
            first: n,
            second: 2 * n,
        };
        self.call(rt, tally, call, 0, wanted)?;
        if length == 0 {
            return Ok(());
        }
        let short = Lengths {
            result: length - 1,
            ..wanted
        };
        self.call(rt, tally, call, 5, short)
    }

    // A result that is a number shorter is zero afterwards.
    fn gives(&self, rt: &impl Print, tally: &mut Tally) -> io::Result<()> {
        let zeros = [0u32; 42];
        let length = self.count.min(42);
        let row = self.row;
        let list = &row[..length];
        self.just(rt, tally, Call::Strong, length)?;
        let held = leaves(self.site, list);
        tally.check(rt, Call::Strong, 0, "expected", held)?;
        let zero = length == 0 || leaves(self.site, &zeros[..length - 1]);
        tally.check(rt, Call::Strong, 0, "expected", zero)
    }

    fn look_up(&self, rt: &impl Print, tally: &mut Tally) -> io::Result<()> {
        let t = Triple {
            subject: self.row[2],
            property: self.row[3],
            object: self.row[4],
        };
        let got = calls::look_up(rt, tally, 0, self.site.table, t)?;
        small(rt, Call::LookUp, self.name, self.row[0], column(got))?;
        let at_place = got.place == self.row[1] as usize;
        tally.check(rt, Call::LookUp, 0, "place", at_place)
    }

    fn ask(&self, rt: &impl Print, tally: &mut Tally, map: &[u32]) -> io::Result<()> {
        let Site { words, table, .. } = self.site;
        let row = self.row;
        let got = calls::ask(rt, tally, 0, words, table, map, &row[1..])?;
        small(rt, Call::Ask, self.name, row[0], got)
    }

    fn work(&self, rt: &impl Print, tally: &mut Tally, kind: Kind) -> io::Result<()> {
        let mut space = [0u32; 311];
        let map = &mut space[..self.site.roster.len().min(311)];
        match kind {
            Kind::One(call) => self.one(rt, tally, call),
            Kind::Every => self.every(rt, tally),
            Kind::Look => self.look_up(rt, tally),
            Kind::AskZero => self.ask(rt, tally, map),
            Kind::AskItself => {
                identity(map);
                self.ask(rt, tally, map)
            }
            Kind::Needs => self.just(rt, tally, Call::Saturate, self.row[0] as usize),
            Kind::Gives => self.gives(rt, tally),
        }
    }
}

// The place in the text, and what the settings give: the words, the table and its length, the roster and N.
#[derive(Drop)]
struct Setting {
    at: usize,
    words: Vocabulary,
    table: [u32; 60],
    length: usize,
    roster: [u8; 311],
    n: usize,
}

impl Setting {
    fn site(&self) -> Site<'_> {
        Site {
            words: self.words,
            table: &self.table[..self.length.min(60)],
            roster: &self.roster[..self.n.min(311)],
        }
    }

    // Reads N and the marks, which begin at a place.
    fn read_roster(&mut self, text: &[u8], from: usize) {
        let read = number(text, from);
        let from = behind(text, read.next);
        marks(text, from, &mut self.roster);
        self.n = read.value as usize;
        self.at = behind(text, word_end(text, from));
    }

    // Reads the numbers of a table or of words.
    fn read_numbers(&mut self, text: &[u8], from: usize) {
        let read = numbers(text, from, &mut self.table);
        self.length = read.value as usize;
        self.at = behind(text, read.next);
    }

    // Reads a case, whose name begins at a place, and works it.
    fn read_case(
        &mut self,
        rt: &impl Print,
        tally: &mut Tally,
        kind: Kind,
        text: &[u8],
        from: usize,
    ) -> io::Result<()> {
        let mut row = [0u32; 42];
        let end = word_end(text, from).min(text.len());
        let read = numbers(text, end, &mut row);
        let case = Case {
            site: self.site(),
            name: &text[from.min(end)..end],
            row: &row,
            count: read.value as usize,
        };
        case.work(rt, tally, kind)?;
        self.at = behind(text, read.next);
        Ok(())
    }

    fn read_line(&mut self, rt: &impl Print, tally: &mut Tally, text: &[u8]) -> io::Result<()> {
        let from = word_end(text, self.at);
        match Line::from(byte_at(text, self.at)) {
            Line::Comment => self.at = behind(text, line_end(text, self.at)),
            Line::Roster => self.read_roster(text, behind(text, from)),
            Line::Table => self.read_numbers(text, from),
            Line::Words => {
                self.read_numbers(text, from);
                self.length = 0;
                self.words = words_at(&self.table, 0);
            }
            Line::Case(kind) => self.read_case(rt, tally, kind, text, behind(text, from))?,
        }
        Ok(())
    }
}

// Works a text of at most 1,000 lines.
pub fn all(rt: &impl Print, tally: &mut Tally, text: &[u8]) -> io::Result<()> {
    let mut setting = Setting {
        at: 0,
        words: rdfs_words(),
        table: [0; 60],
        length: 0,
        roster: [0; 311],
        n: 0,
    };
    for _ in 0..1000 {
        if text.len() <= setting.at {
            return Ok(());
        }
        setting.read_line(rt, tally, text)?;
    }
    Ok(())
}
