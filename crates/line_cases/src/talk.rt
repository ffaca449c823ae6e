use line::{Line, Trust};

// A talk over a line: the line, and the buffer that it answers into.
#[derive(Drop)]
pub struct Talk<L> {
    pub line: L,
    pub buffer: [u8; 4096],
}

impl<L: Line> Talk<L> {
    // A talk over a line, whose buffer holds nothing but this byte.
    pub fn over(line: L, filled: u8) -> Talk<L> {
        Talk {
            line,
            buffer: [filled; 4096],
        }
    }

    // Takes a reply, and whether it is this text and lies at the buffer's front.
    fn hears(&mut self, reply: &[u8]) -> bool {
        self.line.take(&mut self.buffer) == Ok(Some(reply.len())) && self.buffer.starts_with(reply)
    }

    // Takes a reply, and whether it is lost.
    pub fn hears_nothing(&mut self) -> bool {
        self.line.take(&mut self.buffer) == Ok(None)
    }

    // Opens a name, and whether the greeting is this reply.
    pub fn greets(&mut self, name: &[u8], reply: &[u8]) -> bool {
        self.line.open(name).is_ok() && self.hears(reply)
    }

    // Puts a piece, and whether the answer is this reply.
    pub fn answers(&mut self, piece: &[u8], reply: &[u8]) -> bool {
        self.line.put(piece).is_ok() && self.hears(reply)
    }

    // Puts a piece, and whether the reply is lost.
    pub fn loses(&mut self, piece: &[u8]) -> bool {
        self.line.put(piece).is_ok() && self.hears_nothing()
    }

    // Covers the line, and whether the handshake's answer is this trust and this names text.
    pub fn covers(&mut self, trust: Trust, names: &[u8]) -> bool {
        self.line.cover(&mut self.buffer) == Ok(Some((trust, names.len())))
            && self.buffer.starts_with(names)
    }
}
