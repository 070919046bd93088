// Reads the text of small cases: words and numbers of digits, one space apart, to the end of a line.
use random_sites::random::set;

// What was read, and the place behind it.
#[derive(Clone, Copy)]
pub struct Got {
    pub value: u32,
    pub next: usize,
}

// The byte at a place, 0 behind the text.
pub fn byte_at(text: &[u8], i: usize) -> u8 {
    text.get(i).copied().unwrap_or(0)
}

// The place behind one of the text.
pub fn behind(text: &[u8], i: usize) -> usize {
    if i < text.len() { i + 1 } else { text.len() }
}

// The first place from one on whose byte ends what is read, or the text's end.
fn end_of<F: Fn(u8) -> bool>(text: &[u8], from: usize, ends: F) -> usize
    requires { F.IsAlwaysCallable ends }
{
    for i in from..text.len() {
        if ends(text[i]) {
            return i;
        }
    }
    from.max(text.len())
}

// The place of the first space or line's end from a place on.
pub fn word_end(text: &[u8], from: usize) -> usize {
    end_of(text, from, |byte| byte <= b' ')
}

// The place of the first line's end from a place on.
pub fn line_end(text: &[u8], from: usize) -> usize {
    end_of(text, from, |byte| byte == b'\n')
}

// A number with one more digit.
fn extend(value: u32, byte: u8) -> u32 {
    value % 100000000 * 10 + u32::from(byte % 16)
}

pub fn number(text: &[u8], from: usize) -> Got {
    let next = end_of(text, from, |byte| !byte.is_ascii_digit());
    let mut value = 0;
    for i in from..next.min(text.len()) {
        value = extend(value, text[i]);
    }
    Got { value, next }
}

// Puts the numbers that follow, a space before each, into a list; their count.
pub fn numbers(text: &[u8], from: usize, list: &mut [u32]) -> Got {
    let mut next = from;
    for count in 0..60 {
        if byte_at(text, next) != b' ' {
            return Got { value: count, next };
        }
        let read = number(text, behind(text, next));
        set(list, count as usize, read.value);
        next = read.next;
    }
    Got { value: 60, next }
}

// Puts the digits from a place on into a roster, and 0 behind them.
pub fn marks(text: &[u8], from: usize, roster: &mut [u8]) {
    let mut i = from;
    for slot in roster {
        let byte = byte_at(text, i);
        if byte.is_ascii_digit() {
            *slot = byte % 16;
            i = behind(text, i);
        } else {
            *slot = 0;
        }
    }
}
