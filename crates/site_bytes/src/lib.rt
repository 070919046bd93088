// Bytes and numerals put into a lent list. A byte past the list's end is counted and not stored.
#![tactic(auto)]

ghost use Rattle.std.specs.Prelude.{◌≡◌, ◌++◌, [], length, set};
ghost use Rattle.site_form.specs.Text.{numeral};
ghost use Rattle.site_bytes.specs.Calls.{Room, Put, HasRoom, Wrote};

// A lent list, and the place up to which bytes were put into it.
#[derive(Drop)]
pub struct Page<'a> {
    pub out: &'a mut [u8],
    pub at: usize,
}

// Stores a byte at a place, if the list has that place.
fn put_byte(out: &mut [u8], at: usize, b: u8)
    ensures { out.new ≡ set out.old at b }
{
    if at < out.len() {
        out[at] = b;
    }
}

// Stores the bytes w from a place on; the place after them.
fn put_bytes(out: &mut [u8], at: usize, w: &[u8]) -> usize
    requires { Room at w.now }
    ensures { Put out.old at w.now out.new result }
{
    for (i, b) in w.iter().enumerate() {
        put_byte(out, at + i, *b);
    }
    at + w.len()
}

// How many digits the numeral of v has.
fn numeral_length(v: u32) -> usize
    ensures { result ≡ length (numeral v) }
{
    let mut count = 1;
    let mut rest = v;
    while 10 <= rest {
        count += 1;
        rest /= 10;
    }
    count
}

// Stores the numeral of v from a place on, last digit first; the place after it.
fn put_numeral(out: &mut [u8], at: usize, v: u32) -> usize
    requires { Room at (numeral v) }
    ensures { Put out.old at (numeral v) out.new result }
{
    let next = at + numeral_length(v);
    let mut rest = v;
    let mut i = next;
    while 10 <= rest {
        i -= 1;
        put_byte(out, i, b'0' + (rest % 10) as u8);
        rest /= 10;
    }
    put_byte(out, at, b'0' + rest as u8);
    next
}

impl<'a> Page<'a> {
    // A page whose list nothing was put into yet.
    pub fn new(out: &'a mut [u8]) -> Self
        ensures same { result.out.ghost_name ≡ out.entry.ghost_name }
        ensures list { result.out.now ≡ out.old }
        ensures front { result.at ≡ 0 }
    {
        Page { out, at: 0 }
    }

    // Puts the bytes w.
    pub fn put(&mut self, w: &[u8])
        requires { HasRoom self.old w.now }
        ensures { Wrote self.old w.now self.new }
    {
        let list = &mut *self.out;
        self.at = put_bytes(list, self.at, w);
    }

    // Puts the bytes w and the numeral of v behind them.
    pub fn put_after(&mut self, w: &[u8], v: u32)
        requires { HasRoom self.old (w.now ++ numeral v) }
        ensures { Wrote self.old (w.now ++ numeral v) self.new }
    {
        let list = &mut *self.out;
        let next = put_bytes(list, self.at, w);
        self.at = put_numeral(list, next, v);
    }
}
