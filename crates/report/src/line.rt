//! A line, put together.

ghost use Rattle.std.specs.Prelude.{◌≡◌, ◌++◌, [], decimal, IfOk};

use cnf_base::OutOfMemory;
use itoa::Buffer;
use smallvec::SmallVec;
use std::alloc::Global;
use std::marker::Model;

const ROOM: usize = 128;

/// The bytes of a line. The longest line of a report fits without an allocation.
#[derive(Drop)]
pub struct Line {
    bytes: SmallVec<u8, ROOM>,
}

impl Model for Line {
    ghost use Rattle.std.specs.Prelude.{List, ℕ};

    ghost Value = { List ℕ };

    ghost view = { λ l. l.bytes.items };
}

impl Line {
    pub fn new(alloc: Global) -> Line
        ensures { result ≡ [] }
    {
        Line {
            bytes: SmallVec::new(alloc),
        }
    }

    pub fn text(mut self, text: &[u8]) -> Result<Line, OutOfMemory>
        ensures { IfOk result (λ line. line ≡ self ++ text.now) }
    {
        if self.bytes.extend_from_slice(text).is_err() {
            return Err(OutOfMemory);
        }
        Ok(self)
    }

    pub fn number(self, number: u64) -> Result<Line, OutOfMemory>
        ensures { IfOk result (λ line. line ≡ self ++ decimal number) }
    {
        let mut buffer = Buffer::new();
        self.text(buffer.format(number).as_bytes())
    }

    pub fn bytes(&self) -> &[u8]
        ensures { result.now ≡ self.now }
    {
        self.bytes.as_slice()
    }
}
