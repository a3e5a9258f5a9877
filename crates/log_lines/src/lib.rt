// Lines: a log cut into lines wherever the reads cut it, with nothing said of what a line means.

#![tactic(auto)]

ghost use Rattle.std.specs.Prelude.{◌≡◌, ◌≤◌};
ghost use Rattle.log_lines.specs.Lines.{next_line};
ghost use Rattle.log_lines.specs.Carrying.{carried, move_down};

// The next line of a buffer: its newline stands at `end`, and the line behind it starts at `next`.
#[derive(Clone, Copy, Debug, PartialEq, Eq)]
pub struct NextLine {
    pub end: usize,
    pub next: usize,
}

// The next line of the bytes from `from` on: the part up to `end`, without its newline; none where no newline is left.
pub fn next_line(bytes: &[u8], from: usize) -> Option<NextLine>
    ensures { result ≡ next_line bytes.now from }
{
    let end = text_fields::find(bytes, from, b'\n');
    if end < bytes.len() {
        return Some(NextLine { end, next: end + 1 });
    }
    None
}

// How many of the bytes that are left are carried on to the next read: all while lines wait in them; where no newline is left (`done`),
// 129 are enough, since a line over 128 bytes is as good as its first 129.
pub fn carried(done: bool, left: usize) -> usize
    ensures value { result ≡ carried done left }
    ensures upper_bound { result ≤ left }
{
    if done { left.min(129) } else { left }
}

// Moves `count` bytes from `from` on to the front; a buffer that has not so many stays as it is.
pub fn move_down(buf: &mut [u8], from: usize, count: usize)
    ensures { buf.new ≡ move_down buf.old from count }
{
    let n = buf.len();
    if n < count || n - count < from {
        return;
    }
    for i in 0..count {
        buf[i] = buf[from + i];
    }
}
