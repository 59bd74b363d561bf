//! A writer into bytes that are lent: it takes as much as fits, and nothing past their end.
ghost use Rattle.std.specs.Prelude.{◌≤◌, length};

use std::io::{self, Write};

/// Lent bytes, and how many of them were written.
#[derive(Drop)]
pub struct Page<'a> {
    /// All of them.
    pub room: &'a mut [u8],
    /// How many were written, from the front on.
    pub len: usize,
    ghost within: { len ≤ length room.now },
}

impl Write for Page<'_> {
    ghost use Rattle.std.specs.Prelude.{Some, take};

    ghost contents = { λ page. Some (take page.len page.room.now) };

    fn write(&mut self, text: &[u8]) -> io::Result<usize> {
        let count = text.len().min(self.room.len() - self.len);
        self.room[self.len..self.len + count].copy_from_slice(&text[..count]);
        self.len += count;
        Ok(count)
    }

    fn flush(&mut self) -> io::Result<()> {
        Ok(())
    }
}
