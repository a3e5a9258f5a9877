// Numbers read in place: the field that starts at a place of a line. Most numbers of a log have four digits, and those are read at once.

#![tactic(auto)]

ghost use Rattle.std.specs.Prelude.{◌≡◌, ◌+◌, ◌-◌, ◌<◌, ◌≤◌, length};
ghost use Rattle.text_number_at.specs.Four.{together, spells_four, valued, read_four};
ghost use Rattle.text_numbers.specs.Numbers.{read_number};
ghost use Rattle.text_number_at.specs.NumberAt.{with_end, read_four_at, four_left, number_at};
ghost use Rattle.text_number_at.specs.Along.{end_along, ends_field, four_ended, four_tabbed, number_along};

use text_fields::field;
use text_numbers::read_number;

// The field at a place of a line as a number, and the place where it ends.
#[derive(Clone, Copy, Debug, PartialEq, Eq)]
pub struct FieldNumber {
    pub number: u16,
    pub end: usize,
}

// Four bytes as one number, the first one lowest: the machine reads it at once.
fn together(a: u8, b: u8, c: u8, d: u8) -> u32
    ensures { result ≡ together a b c d }
{
    u32::from(a) + 256 * u32::from(b) + 65536 * u32::from(c) + 16777216 * u32::from(d)
}

// Whether each of four bytes held so is 9 at most, and the first is not 0. A larger one has its highest bit set, or gets it with 118 more; so
// has 0 with 1 taken from it, which is 0xFFFFFFFF more in 32 bits. What the last one carries out is not looked at.
fn spells_four(x: u32) -> bool
    ensures { result ≡ spells_four x }
{
    ((u64::from(x) + 0x76767676) | (u64::from(x) + 0xFFFFFFFF)) & 0x80808080 == 0
}

// The number that four digits held so spell: two pairs at once, and the one behind the other.
fn valued(x: u32) -> u16
    requires { x ≤ 0x09090909 }
    ensures { result ≡ valued x }
{
    let pairs = 10 * x + x / 256;
    (pairs % 256 * 100 + pairs / 65536 % 256) as u16
}

// Four bytes read at once: the number that they spell, unless it begins with 0. 0x30303030 is b'0' four times.
fn four(a: u8, b: u8, c: u8, d: u8) -> Option<u16>
    ensures { result ≡ read_four a b c d }
{
    let x = together(a, b, c, d) ^ 0x30303030;
    if spells_four(x) {
        return Some(valued(x));
    }
    None
}

// The same for the four bytes from `from` on.
fn four_at(line: &[u8], from: usize) -> Option<u16>
    requires { from + 4 ≤ length line.now }
    ensures { result ≡ read_four_at line.now from }
{
    four(line[from], line[from + 1], line[from + 2], line[from + 3])
}

// A field that ends at `end` as a number: any number at all.
fn with_end(field: &[u8], end: usize) -> Option<FieldNumber>
    ensures { result ≡ with_end (read_number field.now) end }
{
    let number = read_number(field)?;
    Some(FieldNumber { number, end })
}

// Whether four bytes are left from `from` on, and behind them the end or a tab.
fn four_left(line: &[u8], from: usize) -> bool
    ensures { result ≡ four_left line.now from }
{
    let n = line.len();
    if n < from {
        return false;
    }
    let left = n - from;
    if left < 5 {
        return left == 4;
    }
    line[from + 4] == b'\t'
}

// The field that starts at `from` as a number 0..65535, and where it ends. Most have four digits: those are read at once.
pub fn number_at(line: &[u8], from: usize) -> Option<FieldNumber>
    ensures { result ≡ number_at line.now from }
{
    if four_left(line, from) {
        if let Some(number) = four_at(line, from) {
            return Some(FieldNumber {
                number,
                end: from + 4,
            });
        }
    }
    let f = field(line, from);
    with_end(f, from + f.len())
}

// Whether a byte ends a field: a tab, or the newline of its line.
fn ends_field(b: u8) -> bool
    ensures { result ≡ ends_field b }
{
    (b == b'\t') | (b == b'\n')
}

// Whether four bytes are left from `from` on, and behind them one that ends a field.
fn four_ended(bytes: &[u8], from: usize) -> bool
    ensures { result ≡ four_ended bytes.now from }
{
    from < bytes.len().saturating_sub(4) && ends_field(bytes[from + 4])
}

// Where the field that starts at `from` ends: at the next tab or newline, or at the end of the bytes.
fn field_end(bytes: &[u8], from: usize) -> usize
    ensures value { result ≡ end_along bytes.now from }
    ensures lower_bound { (from ≤ result) × (result - from ≤ length bytes.now - from) }
{
    for e in from..bytes.len() {
        if ends_field(bytes[e]) {
            return e;
        }
    }
    from.max(bytes.len())
}

// The field that starts at `from`, found and then read.
fn along_slowly(bytes: &[u8], from: usize) -> Option<FieldNumber>
    ensures { result ≡ number_along bytes.now from }
{
    let end = field_end(bytes, from);
    if bytes.len() <= end {
        return None;
    }
    with_end(&bytes[from..end], end)
}

// The same as `number_at` where no line was cut out of the bytes yet: the field ends at a tab or a newline, whatever stands behind.
pub fn number_along(bytes: &[u8], from: usize) -> Option<FieldNumber>
    ensures { result ≡ number_along bytes.now from }
{
    if four_ended(bytes, from) {
        if let Some(number) = four_at(bytes, from) {
            return Some(FieldNumber {
                number,
                end: from + 4,
            });
        }
    }
    along_slowly(bytes, from)
}

// Four digits and a tab at `from`, read at once: most numbers of a line stand so. Where the first digit is 0, or anything else stands there,
// nothing is read.
pub fn four_tabbed(bytes: &[u8], from: usize) -> Option<u16>
    ensures { result ≡ four_tabbed bytes.now from }
{
    if from < bytes.len().saturating_sub(4) && bytes[from + 4] == b'\t' {
        return four_at(bytes, from);
    }
    None
}
