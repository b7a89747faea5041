// When the head of a request is looked for again.

ghost use Rattle.std.specs.Prelude.{◌≡◌, ◌≤◌, true, length};

use http_heads::MAX_HEAD_BYTES;

/// When bytes are looked at for a head: where there are twice as many as at the last look, where an empty line has come
/// after a line, and where no more may come. So bytes that come one by one cost linear time.
#[derive(Drop)]
pub(crate) struct Due {
    next: usize,
    seen: usize,
    line: Line,
}

// What the line has that the bytes are in.
#[derive(Clone, Copy)]
enum Line {
    // Nothing, and nothing but empty lines came before.
    First,
    // Nothing, after a line that is not empty.
    Empty,
    // Something.
    Begun,
}

impl Due {
    /// No byte was seen.
    pub(crate) fn new() -> Due {
        Due {
            next: 1,
            seen: 0,
            line: Line::First,
        }
    }

    /// Whether the bytes are looked at, of which those that were there before have not changed.
    pub(crate) fn is_due(&mut self, bytes: &[u8]) -> bool
        ensures { 16384 ≤ length bytes.now → result ≡ true }
    {
        if bytes.len() >= self.next || bytes.len() >= MAX_HEAD_BYTES {
            self.next = bytes.len().saturating_mul(2);
            return true;
        }
        self.sees_end(bytes)
    }

    // Whether an empty line has ended in the bytes that were not seen yet, after a line that is not empty.
    fn sees_end(&mut self, bytes: &[u8]) -> bool {
        let mut ended = false;
        if self.seen < bytes.len() {
            for byte in &bytes[self.seen..] {
                let (line, ends) = next(self.line, *byte);
                self.line = line;
                ended = ended || ends;
            }
        }
        self.seen = bytes.len();
        ended
    }
}

// The line after one byte more, and whether an empty line has ended after a line that is not empty.
fn next(line: Line, byte: u8) -> (Line, bool) {
    match (line, byte) {
        (Line::First, b'\n') => (Line::First, false),
        (Line::First, b'\r') => (Line::First, false),
        (Line::Empty, b'\n') => (Line::Empty, true),
        (Line::Empty, b'\r') => (Line::Empty, false),
        (Line::Begun, b'\n') => (Line::Empty, false),
        _ => (Line::Begun, false),
    }
}
