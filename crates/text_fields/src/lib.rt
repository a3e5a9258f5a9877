// Text: where a byte stands, and the fields of a line as parts of the caller's line.

#![tactic(auto)]

ghost use Rattle.std.specs.Prelude.{◌≡◌, ◌+◌, ◌-◌, ◌≤◌, length, drop};
ghost use Rattle.text_fields.specs.Finding.{before, none_of};
ghost use Rattle.text_fields.specs.Fields.{field_at};

// Byte by byte: the place of the first `wanted` byte at or behind `from`, or the end where there is none.
fn find_slowly(bytes: &[u8], from: usize, wanted: u8) -> usize
    ensures value { result ≡ from + length (before wanted (drop from bytes.now)) }
    ensures lower_bound { (from ≤ result) × (result - from ≤ length bytes.now - from) }
{
    for e in from..bytes.len() {
        if bytes[e] == wanted {
            return e;
        }
    }
    from.max(bytes.len())
}

// Whether none of the sixteen bytes from `e` on is `wanted`. All are looked at before anything is decided: that is one comparison of sixteen
// bytes for the machine.
fn none_here(bytes: &[u8], e: usize, wanted: u8) -> bool
    requires { e + 16 ≤ length bytes.now }
    ensures { result ≡ none_of 16 wanted bytes.now e }
{
    let mut none = true;
    for b in &bytes[e..e + 16] {
        none &= *b != wanted;
    }
    none
}

// The place of the first `wanted` byte at or behind `from`, or the end where there is none; past the end it is `from` itself. Sixteen bytes
// at a turn, and the last few one by one.
// Kept (promise): the end, and no Option, where there is none: `value` says it, and a line's last field ends there.
pub fn find(bytes: &[u8], from: usize, wanted: u8) -> usize
    ensures value { result ≡ from + length (before wanted (drop from bytes.now)) }
    ensures lower_bound { (from ≤ result) × (result - from ≤ length bytes.now - from) }
{
    let stop = bytes.len().saturating_sub(15);
    // Kept (no plainer): the place, which moves by sixteen, is where the rest of the search starts.
    let mut e = from;
    while e < stop {
        if none_here(bytes, e, wanted) {
            e += 16;
        } else {
            return find_slowly(bytes, e, wanted);
        }
    }
    find_slowly(bytes, e, wanted)
}

// The field that starts at `from`, up to the next tab, as a part of the caller's line; past the end it is the empty part at the end.
pub fn field(line: &[u8], from: usize) -> &[u8]
    ensures result_value { result.now ≡ field_at line.now from }
    ensures result_in_bounds { length result.now ≤ length line.now - from }
{
    let n = line.len();
    if n < from {
        return &line[n..];
    }
    let e = find(line, from, b'\t');
    &line[from..e]
}
