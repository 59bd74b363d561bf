//! Writing all of a text, and what is written where that fails.
ghost use Rattle.std.specs.Prelude.{◌≤◌, length, take, IfOk, MatchResult};
ghost use Rattle.std.specs.Io.KnownBytes.{Appends, Keeps};
ghost use Rattle.gsym_output.specs.Writing.{Writes};

use std::io::{self, ErrorKind, Write};

// The front of a text, as much as is taken at once; nothing where the writer was interrupted.
fn write_some<W: Write>(out: &mut W, text: &[u8]) -> io::Result<usize>
    ensures within { IfOk result (λ len. len ≤ length text.now) }
    ensures taken { MatchResult result
        (λ len. Appends (W.contents out.old) (W.contents out.new) (take len text.now))
        (λ _. Keeps (W.contents out.old) (W.contents out.new)) }
{
    match out.write(text) {
        Ok(0) => Err(io::Error::from(ErrorKind::WriteZero)),
        Ok(len) => Ok(len),
        Err(error) => {
            if error.kind() == ErrorKind::Interrupted {
                Ok(0)
            } else {
                Err(error)
            }
        }
    }
}

/// Writes all of a text (RULES, "A report" and "A file as text").
///
/// # Errors
///
/// The writer fails: a front of the text was written.
// std's `write_all` says nothing of a failure.
#[tactic(auto, using(crate::proofs::Fronts::part_start, crate::proofs::Fronts::part_cut))]
pub fn write_text<W: Write>(out: &mut W, text: &[u8]) -> io::Result<()>
    ensures { Writes (W.contents out.old) (W.contents out.new) result text.now }
{
    let mut rest = text;
    for _turn in 0..u64::MAX {
        if rest.is_empty() {
            return Ok(());
        }
        let len = write_some(out, rest)?;
        let (_, behind) = rest.split_at(len);
        rest = behind;
    }
    // It doesn't come: no writer is interrupted so often.
    Err(io::Error::from(ErrorKind::Interrupted))
}
