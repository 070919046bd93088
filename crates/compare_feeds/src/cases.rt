// The small cases, written as a text, which the program reads from its file stdin. A line that begins with # is a comment. Another sets
// what the lines after it work on,
//   WORDS    the five reserved codes
//   ROSTER   N, then the marks of the first codes, each a digit; the other codes have none
//   LISTS    an intake that is opened, with these words: the lengths of triples, summary, weights and map
//   JUNK     one that is not opened: the same lengths, of lists of junk
// or is a case: a call, the case's name, and numbers.
//   open     the expected answer
//   feed     the length of the work list, a triple, the expected answer and place; for an opened intake also the expected weights and map
//   remove   the same
// Calls to an opened intake follow one another since its line LISTS: each line runs them all and looks at the last. Lists of junk are
// given one call each. An answer is a refusal's number, or 0; it is 15 for a feed that is new, and for the removal of a triple whose ends
// others keep. Weights are a digit for each slot. A map is a word of digits to base 16, one for each code: its representative, or f where
// it is absent; N is at most 16.
// The first letter tells. A number has at most nine digits. What was expected and what came is printed for each case.
use comparison_report::report;
use comparison_report::report::{Tally, small};
use comparison_report::script::{behind, byte_at, line_end, marks, number, numbers, word_end};
use fed_intakes::both::{compare, record_last, record_open};
use fed_intakes::inputs::{Call, Case, Input};
use fed_intakes::intakes::State;
use lists::rdfs_words;
use model::Vocabulary;
use random_sites::words::words_at;
use std::io;

// What a line is.
#[derive(Clone, Copy)]
enum Line {
    Comment,
    Words,
    Roster,
    Lists,
    Junk,
    Case(report::Call),
}

// A line by its first letter.
impl From<u8> for Line {
    fn from(letter: u8) -> Self {
        match letter {
            b'#' => Self::Comment,
            b'W' => Self::Words,
            b'R' => Self::Roster,
            b'L' => Self::Lists,
            b'o' => Self::Case(report::Call::Open),
            b'r' => Self::Case(report::Call::Remove),
            _ if letter < b'a' => Self::Junk,
            _ => Self::Case(report::Call::Feed),
        }
    }
}

// What a line expects of a call.
#[derive(Clone, Copy)]
struct Expected<'a> {
    call: report::Call,
    name: &'a [u8],
    answer: u32,
    place: usize,
    weights: u64,
    map: u64,
}

// An intake with lists of the lengths that a line has.
fn case_of(opens: bool, words: Vocabulary, row: &[u32; 7]) -> Case {
    Case {
        words,
        opens,
        calls: 0,
        triples: row[0] as usize,
        summary: row[1] as usize,
        weights: row[2] as usize,
        map: row[3] as usize,
    }
}

// A digit to base 16.
fn digit(byte: u8) -> u64 {
    let low = u64::from(byte % 16);
    if byte < b'a' { low } else { low + 9 }
}

// The last word of a line as a number to base 16.
fn last_word(text: &[u8], from: usize) -> u64 {
    let mut digits = 0u64;
    for i in from..line_end(text, from) {
        let byte = byte_at(text, i);
        digits = if byte == b' ' {
            0
        } else {
            (digits % 1152921504606846976 * 16).wrapping_add(digit(byte))
        };
    }
    digits
}

impl Expected<'_> {
    fn check_open(&self, rt: &impl Print, tally: &mut Tally, state: State) -> io::Result<()> {
        record_open(tally, state);
        small(rt, self.call, self.name, self.answer, state.opened)?;
        let right = state.opened == self.answer;
        tally.check(rt, self.call, 0, "answer", right)
    }

    // The count that goes with the answer: 1 for new, 2 for removed.
    fn count(&self) -> usize {
        match self.call {
            report::Call::Feed if self.answer == 15 => 1,
            report::Call::Remove if self.answer % 15 == 0 => 2,
            _ => 0,
        }
    }

    fn check_call(&self, rt: &impl Print, tally: &mut Tally, state: State) -> io::Result<()> {
        record_last(tally, state);
        small(rt, self.call, self.name, self.answer, state.column)?;
        let right = state.call == self.call && state.column == self.answer;
        tally.check(rt, self.call, 0, "answer", right)?;
        let counted = state.seen.count == self.count();
        tally.check(rt, self.call, 0, "count", counted)?;
        let at_place = state.place == self.place;
        tally.check(rt, self.call, 0, "place", at_place)
    }

    // The weights and the map of an opened intake.
    fn check_lists(&self, rt: &impl Print, tally: &mut Tally, state: State) -> io::Result<()> {
        let weighed = state.weighed.digits == self.weights;
        tally.check(rt, self.call, 0, "weights", weighed)?;
        let mapped = state.map_digits == self.map;
        tally.check(rt, self.call, 0, "map", mapped)
    }

    // Compares what came with what was expected.
    fn check(
        &self,
        rt: &impl Print,
        tally: &mut Tally,
        opens: bool,
        state: State,
    ) -> io::Result<()> {
        if self.call == report::Call::Open {
            return self.check_open(rt, tally, state);
        }
        self.check_call(rt, tally, state)?;
        if opens {
            self.check_lists(rt, tally, state)?;
        }
        Ok(())
    }
}

// The place in the text, that of the roster, the words, and the intake with its calls so far.
#[derive(Drop)]
struct Setting {
    at: usize,
    roster: usize,
    words: Vocabulary,
    case: Case,
    calls: [Call; 60],
}

impl Setting {
    // Puts the call of a line behind the others, or none for an opening; lists of junk have one call alone.
    fn add(&mut self, call: report::Call, row: &[u32; 7]) {
        if call == report::Call::Open {
            self.case.calls = 0;
            return;
        }
        let place = if self.case.opens {
            self.case.calls.min(59)
        } else {
            0
        };
        let feed = Call::feed(self.words, row[0] as usize, row[1], row[2], row[3]);
        self.calls[place] = if call == report::Call::Remove {
            feed.removal()
        } else {
            feed
        };
        self.case.calls = place + 1;
    }

    // The calls on both engines.
    fn run(&self, rt: &impl Print, tally: &mut Tally, text: &[u8]) -> io::Result<State> {
        let mut roster = [0u8; 16];
        let read = number(text, self.roster);
        let n = (read.value as usize).min(16);
        marks(text, behind(text, read.next), &mut roster);
        let input = Input {
            case: self.case,
            calls: &self.calls,
            roster: &roster[..n],
            spoilt: &roster[..n],
        };
        compare(rt, tally, 0, input)
    }

    // Reads a case, whose name begins at a place, and works it.
    fn read_case(
        &mut self,
        rt: &impl Print,
        tally: &mut Tally,
        call: report::Call,
        text: &[u8],
        from: usize,
    ) -> io::Result<()> {
        let mut row = [0u32; 7];
        let end = word_end(text, from).min(text.len());
        numbers(text, end, &mut row);
        let name = &text[from.min(end)..end];
        let expected = if call == report::Call::Open {
            Expected {
                call,
                name,
                answer: row[0],
                place: 0,
                weights: 0,
                map: 0,
            }
        } else {
            Expected {
                call,
                name,
                answer: row[4],
                place: row[5] as usize,
                weights: u64::from(row[6]),
                map: last_word(text, end),
            }
        };
        self.add(call, &row);
        let state = self.run(rt, tally, text)?;
        expected.check(rt, tally, self.case.opens, state)?;
        self.at = behind(text, line_end(text, end));
        Ok(())
    }

    fn read_line(&mut self, rt: &impl Print, tally: &mut Tally, text: &[u8]) -> io::Result<()> {
        let line = Line::from(byte_at(text, self.at));
        let from = word_end(text, self.at);
        if let Line::Case(call) = line {
            return self.read_case(rt, tally, call, text, behind(text, from));
        }
        let mut row = [0u32; 7];
        numbers(text, from, &mut row);
        match line {
            Line::Words => self.words = words_at(&row, 0),
            Line::Roster => self.roster = behind(text, from),
            Line::Lists => self.case = case_of(true, self.words, &row),
            Line::Junk => self.case = case_of(false, self.words, &row),
            Line::Comment | Line::Case(_) => (),
        }
        self.at = behind(text, line_end(text, from));
        Ok(())
    }
}

// Works a text of at most 1,000 lines.
pub fn all(rt: &impl Print, tally: &mut Tally, text: &[u8]) -> io::Result<()> {
    let words = rdfs_words();
    let mut setting = Setting {
        at: 0,
        roster: 0,
        words,
        case: case_of(true, words, &[0; 7]),
        calls: [Call::feed(words, 0, 0, 0, 0); 60],
    };
    for _ in 0..1000 {
        if text.len() <= setting.at {
            return Ok(());
        }
        setting.read_line(rt, tally, text)?;
    }
    Ok(())
}
