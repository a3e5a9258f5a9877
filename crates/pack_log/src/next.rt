// The next line of a log, found and read.
ghost use Rattle.std.specs.Prelude.{◌≡◌};
ghost use Rattle.pack_log.specs.Next.{next_entry};

use log_entries::{Ahead, Entry};
use log_lines::NextLine;

// The next line of a buffer: what it says, and where the line behind it starts.
#[derive(Clone, Copy)]
pub struct NextEntry {
    pub entry: Entry,
    pub next: usize,
}

// The next line of the bytes from `from` on, if a newline is left. Most are samples, and those are read along; the newline of any other is looked
// for first.
pub fn next_entry(bytes: &[u8], from: usize) -> Option<NextEntry>
    ensures { result ≡ next_entry bytes.now from }
{
    if let Some(Ahead { end, entry }) = log_entries::read_ahead(bytes, from) {
        return Some(NextEntry {
            entry,
            next: end + 1,
        });
    }
    let NextLine { end, next } = log_lines::next_line(bytes, from)?;
    let line = &bytes[from..end];
    let entry = log_entries::read_entry(line);
    Some(NextEntry { entry, next })
}
