//! The blocks of a case file: a line that begins with `@`, and the lines up to the next such line.

/// A block: the words behind `@`, the lines under them, and the number of its first line.
#[derive(Clone, Copy)]
pub(crate) struct Block<'a> {
    pub(crate) head: &'a str,
    pub(crate) body: &'a str,
    pub(crate) line: usize,
}

/// The blocks of a text that are left, in their order.
#[derive(Clone, Copy)]
pub(crate) struct Blocks<'a> {
    rest: &'a str,
    line: usize,
}

/// How many bytes stand before the first line that begins with `@`.
fn body_len(text: &str) -> usize {
    let bytes = text.as_bytes();
    if bytes.first() == Some(&b'@') {
        return 0;
    }
    for (at, pair) in bytes.windows(2).enumerate() {
        if pair == b"\n@".as_slice() {
            return at + 1;
        }
    }
    bytes.len()
}

fn count_lines(text: &str) -> usize {
    let mut count = 0usize;
    for byte in text.as_bytes() {
        if *byte == b'\n' {
            count = count.saturating_add(1);
        }
    }
    count
}

impl<'a> Blocks<'a> {
    pub(crate) fn new(text: &'a str) -> Blocks<'a> {
        Blocks {
            rest: text,
            line: 1,
        }
    }

    /// Takes the next block; none where no line is left.
    pub(crate) fn take(&mut self) -> Option<Block<'a>> {
        let (first, below) = self.rest.split_once('\n')?;
        let len = body_len(below);
        let body = below.get(..len)?;
        let block = Block {
            head: first.strip_prefix("@").unwrap_or(first),
            body,
            line: self.line,
        };
        self.rest = below.get(len..)?;
        self.line = self
            .line
            .saturating_add(count_lines(body))
            .saturating_add(1);
        Some(block)
    }

    /// Takes the next block where it is another answer that will do.
    pub(crate) fn take_other(&mut self) -> Option<Block<'a>> {
        let mut ahead = *self;
        let block = ahead.take()?;
        if block.head != "or" {
            return None;
        }
        *self = ahead;
        Some(block)
    }
}
