// The site form: what the reader gives of a text. What it means is defined in specs/.
#![tactic(auto)]

use model::Vocabulary;
use query::Query;

// The most triples of a text, and the most queries.
pub const MOST_LINES: usize = 1000;

pub const MOST_ASKS: usize = 16;

// The most bytes of a text that is printed, the largest site size, and the slots for its saturation.
pub const MOST_BYTES: usize = 32768;

pub const LARGEST_PRINTED: usize = 512;

pub const PRINTER_SLOTS: usize = 2048;

// A site that was read: its size, its reserved codes, how many triples and queries the text has, and the queries.
// The triples go to a lent list.
#[derive(Clone, Copy)]
pub struct Site {
    pub size: u32,
    pub words: Vocabulary,
    pub count: usize,
    pub asks: usize,
    pub queries: [Query; MOST_ASKS],
}
