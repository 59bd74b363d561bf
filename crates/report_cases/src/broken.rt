//! A reader and a writer that fail in mid-stream.
use std::io::{self, ErrorKind, Read, Write};

/// A writer that takes so many bytes, three at most at a time, and is interrupted before each time; then it fails, as
/// it does when it is flushed.
#[derive(Drop)]
pub struct BrokenWriter {
    /// What it took.
    pub taken: Vec<u8>,
    /// How many bytes it takes.
    pub room: usize,
    /// Whether it was interrupted last.
    pub interrupted: bool,
}

impl Write for BrokenWriter {
    fn write(&mut self, text: &[u8]) -> io::Result<usize> {
        self.interrupted = !self.interrupted;
        if self.interrupted {
            return Err(io::Error::from(ErrorKind::Interrupted));
        }
        let left = self.room.saturating_sub(self.taken.len());
        if left == 0 {
            return Err(io::Error::from(ErrorKind::TimedOut));
        }
        let (piece, _) = text.split_at(text.len().min(left).min(3));
        self.taken.extend_from_slice(piece)?;
        Ok(piece.len())
    }

    fn flush(&mut self) -> io::Result<()> {
        Err(io::Error::from(ErrorKind::TimedOut))
    }
}

/// A reader that gives some bytes, and then fails.
#[derive(Drop)]
pub struct BrokenReader<'a> {
    /// What it has left to give.
    pub rest: &'a [u8],
}

impl Read for BrokenReader<'_> {
    fn read(&mut self, room: &mut [u8]) -> io::Result<usize> {
        if self.rest.is_empty() {
            return Err(io::Error::from(ErrorKind::TimedOut));
        }
        self.rest.read(room)
    }
}
