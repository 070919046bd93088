// The own roster of a table.
use super::{CLASS, PROPERTY, check_codes};
use naive_lists::{Refusal, Triple, Words, triples_of};

// A class that is marked as a property too has the mark of both.
fn add_role(roster: &mut [u8], code: u32, role: u8) {
    if let Some(mark) = roster.get_mut(code as usize) {
        *mark |= role;
    }
}

// Marks each role of a triple.
fn mark_triple(words: Words, roster: &mut [u8], t: Triple) {
    if t.property == words.instance {
        add_role(roster, t.object, CLASS);
    } else if t.property == words.subclass {
        add_role(roster, t.subject, CLASS);
        add_role(roster, t.object, CLASS);
    } else if t.property == words.subproperty {
        add_role(roster, t.subject, PROPERTY);
        add_role(roster, t.object, PROPERTY);
    } else if t.property == words.domain || t.property == words.range {
        add_role(roster, t.subject, PROPERTY);
        add_role(roster, t.object, CLASS);
    } else {
        add_role(roster, t.property, PROPERTY);
    }
}

// Marks each role of each triple.
pub fn own_roster(words: Words, table: &[u32], roster: &mut [u8]) -> Result<(), Refusal> {
    check_codes(words, table, roster.len())?;
    roster.fill(0);
    for t in triples_of(table) {
        mark_triple(words, roster, t);
    }
    Ok(())
}
