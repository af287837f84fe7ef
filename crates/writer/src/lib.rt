// Writes bytes, numbers and lines to the start of a caller's buffer. What no longer fits is left out.

#![tactic(auto)]

ghost use Rattle.std.specs.Prelude.{◌≡◌, ℕ, List, [], ◌∷◌, length, decimal};
ghost use Rattle.text.specs.Texts.{ending, part_text};
ghost use Rattle.writer.specs.Wrote.{Wrote, done, ahead, more_follow};

// The base that numbers are written in.
const BASE: u32 = 10;

// What stands behind a part of a line.
#[derive(Clone, Copy, Debug, PartialEq, Eq)]
pub enum Ending {
    // A semicolon, and then another part.
    Part,
    // A line feed.
    Line,
}

impl Ending {
    // The byte that stands there.
    fn byte(self) -> u8
        ensures { result ≡ ending (more_follow self) }
    {
        match self {
            Ending::Part => b';',
            Ending::Line => b'\n',
        }
    }
}

// What can be written as a part of a line.
pub trait Written {
    // Its bytes.
    ghost text: { Self → List ℕ };

    fn write(self, writer: &mut Writer)
        ensures { Wrote (text self) writer.old writer.new };
}

impl<'t> Written for &'t [u8] {
    ghost text = { λ bytes. bytes.now };

    fn write(self, writer: &mut Writer) {
        writer.bytes(self);
    }
}

// In decimal.
impl Written for u32 {
    ghost text = { λ n. decimal n };

    fn write(self, writer: &mut Writer) {
        writer.number(self);
    }
}

// `at` is the place of the next byte; at or past the buffer's end nothing more is written. The memory is the caller's. A
// writer that kept only the rest of it, as std does, could not say what stands before.
#[derive(Drop)]
pub struct Writer<'b> {
    buffer: &'b mut [u8],
    at: usize,
}

impl<'b> Writer<'b> {
    // A writer at the start of a buffer.
    pub fn new(buffer: &'b mut [u8]) -> Writer<'b>
        ensures none { done result ≡ [] }
        ensures all { ahead result ≡ buffer.old }
        ensures same { result.buffer.ghost_name ≡ buffer.entry.ghost_name }
    {
        Writer { buffer, at: 0 }
    }

    // How many bytes were written.
    pub fn count(&self) -> usize
        ensures { result ≡ length (done self.now) }
    {
        self.at.min(self.buffer.len())
    }

    // Writes one byte.
    pub fn byte(&mut self, b: u8)
        ensures { Wrote (b ∷ []) self.old self.new }
    {
        if self.at < self.buffer.len() {
            self.buffer[self.at] = b;
            self.at += 1;
        }
    }

    // Writes some bytes.
    pub fn bytes(&mut self, text: &[u8])
        ensures { Wrote text.now self.old self.new }
    {
        for b in text {
            self.byte(*b);
        }
    }

    // Writes a number in decimal.
    pub fn number(&mut self, n: u32)
        ensures { Wrote (decimal n) self.old self.new }
    {
        if n >= BASE {
            self.number(n / BASE);
        }
        self.byte(b'0' + (n % BASE) as u8);
    }

    // Writes a part of a line, and what ends the part.
    pub fn part<P: Written>(&mut self, part: P, ending: Ending)
        ensures { Wrote (part_text (P.text part) (more_follow ending)) self.old self.new }
    {
        part.write(self);
        self.byte(ending.byte());
    }
}
