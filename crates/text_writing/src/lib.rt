// Writing: bytes and decimal numbers put into a lent buffer, where they have room.

#![tactic(auto)]

ghost use Rattle.std.specs.Prelude.{◌≡◌, [], ◌∷◌, ◌+◌, ◌≤◌, leb, length};
ghost use Rattle.text_fields.specs.Decimal.{decimal};
ghost use Rattle.text_writing.specs.Placing.{Put, written};
ghost use Rattle.text_writing.specs.Writers.{Puts};
ghost use Rattle.text_writing.specs.Rows.{row_text, room, roomed, field_text, front_text, back_text};

fn copy(out: &mut [u8], at: usize, text: &[u8])
    requires { at + length text.now ≤ length out.old }
    ensures { out.new ≡ written out.old at text.now }
{
    out[at..at + text.len()].copy_from_slice(text);
}

// How many digits `v` has, without a division.
// Kept (speed): by `ilog10` a line of the replay takes 906 instructions, and 891 so.
fn places(v: u32) -> usize
    ensures value { result ≡ length (decimal v) }
    ensures lower_bound { (1 ≤ result) × (result ≤ 10) }
{
    match v {
        0..=9 => 1,
        10..=99 => 2,
        100..=999 => 3,
        1000..=9999 => 4,
        10000..=99999 => 5,
        100000..=999999 => 6,
        1000000..=9999999 => 7,
        10000000..=99999999 => 8,
        100000000..=999999999 => 9,
        _ => 10,
    }
}

// How many digits a number of 64 bits has.
fn places_wide(v: u64) -> usize
    ensures value { result ≡ length (decimal v) }
    ensures lower_bound { (1 ≤ result) × (result ≤ 20) }
{
    if v < 10 {
        return 1;
    }
    v.ilog10() as usize + 1
}

// Puts the `k` digits of `v` at `at`, the last one first.
fn put_digits(out: &mut [u8], at: usize, k: usize, v: u64)
    requires { (k ≡ length (decimal v)) × (1 ≤ k) × (at + k ≤ length out.old) }
    ensures { out.new ≡ written out.old at (decimal v) }
{
    let mut rest = v;
    for i in 1..k {
        out[at + k - i] = b'0' + (rest % 10) as u8;
        rest /= 10;
    }
    out[at] = b'0' + rest as u8;
}

// The bytes of the longest row: a number of 32 bits, four of 16, and the byte behind each.
pub const ROW: usize = 35;

// A lent buffer, and the place in it where the next text goes.
#[derive(Drop)]
pub struct Writer<'a> {
    pub out: &'a mut [u8],
    pub at: usize,
}

impl<'a> Writer<'a> {
    // A writer into a buffer, from a place of it on.
    pub fn new(out: &'a mut [u8], at: usize) -> Writer<'a>
        ensures same_reference { result.out.ghost_name ≡ out.entry.ghost_name }
        ensures bytes { result.out.now ≡ out.old }
        ensures place { result.at ≡ at }
    {
        Writer { out, at }
    }

    // Whether `count` bytes have room.
    pub fn has_room(&self, count: usize) -> bool
        ensures { result ≡ leb (self.now.at + count) (length self.now.out.now) }
    {
        let size = self.out.len();
        count <= size && self.at <= size - count
    }

    // Puts one byte, which has room.
    fn put_byte_in(&mut self, b: u8)
        requires { self.old.at + 1 ≤ length self.old.out.now }
        ensures put { Puts self.old (b ∷ []) self.new }
        ensures upper_bound { self.new.at ≤ self.old.at + 1 }
    {
        self.out[self.at] = b;
        self.at += 1;
    }

    // Puts one byte; without room nothing is written.
    pub fn put_byte(&mut self, b: u8)
        ensures put { Puts self.old (b ∷ []) self.new }
        ensures upper_bound { self.new.at ≤ self.old.at + 1 }
    {
        if self.has_room(1) {
            self.put_byte_in(b);
        }
    }

    // Puts a text, which has room.
    fn put_bytes_in(&mut self, text: &[u8])
        requires { self.old.at + length text.now ≤ length self.old.out.now }
        ensures put { Puts self.old text.now self.new }
        ensures upper_bound { self.new.at ≤ self.old.at + length text.now }
    {
        let out = &mut *self.out;
        copy(out, self.at, text);
        self.at += text.len();
    }

    // Puts a text; without room nothing is written.
    pub fn put_bytes(&mut self, text: &[u8])
        ensures put { Puts self.old text.now self.new }
        ensures upper_bound { self.new.at ≤ self.old.at + length text.now }
    {
        if self.has_room(text.len()) {
            self.put_bytes_in(text);
        }
    }

    // Puts a number as decimal text, which has room.
    fn put_decimal_in(&mut self, v: u32)
        requires { self.old.at + length (decimal v) ≤ length self.old.out.now }
        ensures put { Puts self.old (decimal v) self.new }
        ensures upper_bound { self.new.at ≤ self.old.at + 10 }
    {
        let k = places(v);
        let out = &mut *self.out;
        put_digits(out, self.at, k, u64::from(v));
        self.at += k;
    }

    // Puts a number as decimal text; without room nothing is written.
    pub fn put_decimal(&mut self, v: u32)
        ensures put { Puts self.old (decimal v) self.new }
        ensures upper_bound { self.new.at ≤ self.old.at + 10 }
    {
        if self.has_room(places(v)) {
            self.put_decimal_in(v);
        }
    }

    // Puts a number of 64 bits as decimal text; without room nothing is written.
    pub fn put_wide(&mut self, v: u64)
        ensures put { Puts self.old (decimal v) self.new }
        ensures upper_bound { (self.new.at ≤ self.old.at + 20) × (length (decimal v) ≤ 20) }
    {
        let k = places_wide(v);
        if self.has_room(k) {
            let out = &mut *self.out;
            put_digits(out, self.at, k, v);
            self.at += k;
        }
    }

    // Puts a number as decimal text, which has room: the last three digits of a long one are put at once.
    fn put_long_in(&mut self, v: u32)
        requires { self.old.at + length (decimal v) ≤ length self.old.out.now }
        ensures { Puts self.old (decimal v) self.new }
    {
        if v < 1000 {
            self.put_decimal_in(v);
            return;
        }
        self.put_decimal_in(v / 1000);
        let e = self.at;
        self.out[e] = b'0' + (v / 100 % 10) as u8;
        self.out[e + 1] = b'0' + (v / 10 % 10) as u8;
        self.out[e + 2] = b'0' + (v % 10) as u8;
        self.at = e + 3;
    }

    // A number, and the tab or the newline behind it. Both have room.
    fn put_field(&mut self, v: u32, end: u8)
        requires { self.old.at + length (field_text v end) ≤ length self.old.out.now }
        ensures { Puts self.old (field_text v end) self.new }
    {
        self.put_decimal_in(v);
        self.put_byte_in(end);
    }

    fn put_front(&mut self, first: u32, second: u16, third: u16)
        requires { self.old.at + 23 ≤ length self.old.out.now }
        ensures put { Puts self.old (front_text first second third) self.new }
        ensures third_len_bound { length (front_text first second third) ≤ 23 }
    {
        self.put_long_in(first);
        self.put_byte_in(b'\t');
        self.put_field(u32::from(second), b'\t');
        self.put_field(u32::from(third), b'\t');
    }

    fn put_back(&mut self, fourth: u16, fifth: u16)
        requires { self.old.at + 12 ≤ length self.old.out.now }
        ensures put { Puts self.old (back_text fourth fifth) self.new }
        ensures fifth_len_bound { length (back_text fourth fifth) ≤ 12 }
    {
        self.put_field(u32::from(fourth), b'\t');
        self.put_field(u32::from(fifth), b'\n');
    }

    // Puts five numbers, parted by tabs and ended by a newline; where the longest such row has no room nothing is written.
    pub fn put_row(&mut self, first: u32, second: u16, third: u16, fourth: u16, fifth: u16)
        ensures put { Puts self.old (roomed (length self.old.out.now) self.old.at (row_text first second third fourth fifth)) self.new }
        ensures fifth_len_bound { length (roomed (length self.old.out.now) self.old.at (row_text first second third fourth fifth)) ≤ room }
    {
        if self.has_room(ROW) {
            self.put_front(first, second, third);
            self.put_back(fourth, fifth);
        }
    }
}
