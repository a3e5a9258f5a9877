// Numbers: decimal numbers read from a field, and the sign of a number.

#![tactic(auto)]

ghost use Rattle.std.specs.Prelude.{◌≡◌, ◌-◌, ◌≤◌, length};
ghost use Rattle.text_numbers.specs.Numbers.{digits_to, number_to, read_number, negative};
ghost use Rattle.text_numbers.specs.Signs.{with_sign, past_minus};

// The digits of a field as a number up to `most`; the test behind each digit keeps it from wrapping.
fn digits(field: &[u8], most: u32) -> Option<u32>
    ensures { result ≡ digits_to most 0 field.now }
{
    let mut v: u64 = 0;
    for b in field {
        if !b.is_ascii_digit() {
            return None;
        }
        v = v * 10 + u64::from(*b - b'0');
        if u64::from(most) < v {
            return None;
        }
    }
    Some(v as u32)
}

// A field as a number up to `most`, without leading zeros.
pub fn number_to(field: &[u8], most: u32) -> Option<u32>
    ensures { result ≡ number_to most field.now }
{
    if field.is_empty() {
        return None;
    }
    if 1 < field.len() && field[0] == b'0' {
        return None;
    }
    digits(field, most)
}

// A field as a number 0..65535.
pub fn read_number(field: &[u8]) -> Option<u16>
    ensures { result ≡ read_number field.now }
{
    let v = number_to(field, 65535)?;
    Some(v as u16)
}

// Minus `v`, for `v` from 1 to 32768: -32768 is made without ever being negated.
fn negative(v: u16) -> i16
    requires { (1 ≤ v) × (v ≤ 32768) }
    ensures { result ≡ negative v }
{
    -1 - ((v - 1) as i16)
}

// A number with its sign, -32768..32767; there is no -0.
pub fn with_sign(below: bool, v: u16) -> Option<i16>
    ensures { result ≡ with_sign below v }
{
    if below {
        if v == 0 || 32768 < v {
            return None;
        }
        return Some(negative(v));
    }
    if 32767 < v {
        return None;
    }
    Some(v as i16)
}

// Where the digits start of a field that starts at `from`: behind its minus, if it has one.
pub fn past_minus(line: &[u8], from: usize) -> usize
    ensures value { result ≡ past_minus line.now from }
    ensures lower_bound { (from ≤ result) × (result - from ≤ length line.now - from) }
{
    if from < line.len() && line[from] == b'-' {
        return from + 1;
    }
    from
}
