// Whether a value of a roster is over 3, eight bytes at a time.
#![tactic(auto)]

ghost use Rattle.std.specs.Prelude.{◌≡◌, ◌+◌, ◌-◌, ◌<◌, ◌≤◌, length};
ghost use Rattle.model.specs.Roster.{mark};
ghost use Rattle.roster_values.specs.Bytes.{over_three, values, bytes_of};

// The six upper bits of each of eight bytes.
const UPPER_BITS: u64 = 0xFCFC_FCFC_FCFC_FCFC;

// Eight bytes of the roster from place i on as one word, the first the lowest.
fn word_at(roster: &[u8], i: usize) -> u64
    requires { i + 8 ≤ length roster.now }
    ensures { bytes_of result ≡ values roster.now i 8 }
{
    let bytes = roster[i..i + 8].as_array::<8>().unwrap();
    u64::from_le_bytes(*bytes)
}

// Whether one of the eight bytes of a word is over 3: such a byte has one of its upper bits.
fn word_over_three(w: u64) -> bool
    ensures { result ≡ over_three (bytes_of w) }
{
    w & UPPER_BITS != 0
}

// Whether a value from place `from` on is over 3, one after the other.
fn rest_wrong(roster: &[u8], from: usize) -> bool
    ensures { result ≡ over_three (values roster.now from (length roster.now - from)) }
{
    for i in from..roster.len() {
        if 3 < roster[i] {
            return true;
        }
    }
    false
}

// Whether a value of the roster is over 3: by words, then the bytes behind the last word.
pub fn value_wrong(roster: &[u8]) -> bool
    ensures { result ≡ over_three roster.now }
{
    let count = roster.len() / 8;
    for k in 0..count {
        if word_over_three(word_at(roster, 8 * k)) {
            return true;
        }
    }
    rest_wrong(roster, 8 * count)
}
