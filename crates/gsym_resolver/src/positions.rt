//! Source positions: a row of the file table, its directory and its file name; and a frame with the position of its
//! call (RULES, "Putting the answer together"). Directories and file names need not be UTF-8, names must.
ghost use Rattle.std.specs.Prelude.{◌≡◌};
ghost use Rattle.gsym_parser.specs.View.{view};
ghost use Rattle.gsym_resolver.specs.Lookup.{position_at, call_at};

use gsym_parser::GsymContext;
use gsym_types::{FileIndex, Frame, InlineFrame, LineNumber, Position, Refusal};

// The position of a file index and a line. Refused: an index that isn't below the file count is 7, a directory or a
// file name that doesn't read is 8.
#[tactic(auto, unfolding(crate::specs::Lookup::position_at))]
pub(crate) fn position_at(
    context: &GsymContext<'_>,
    index: FileIndex,
    line: LineNumber,
) -> Result<Position, Refusal>
    ensures { result ≡ position_at (view context.now) index line }
{
    let row = context.file_info(index).ok_or(Refusal::UnknownFile)?;
    let dir = context.text_at(row.directory).ok_or(Refusal::UnreadPath)?;
    let file = context.text_at(row.filename).ok_or(Refusal::UnreadPath)?;
    Ok(Position { dir, file, line })
}

// A frame's name, and the position of its call; or the refusal 6, 7 or 8.
#[tactic(auto, unfolding(crate::specs::Lookup::call_at))]
pub(crate) fn call_at(context: &GsymContext<'_>, frame: InlineFrame) -> Result<Frame, Refusal>
    ensures { result ≡ call_at (view context.now) frame }
{
    let name = context.name_at(frame.name).ok_or(Refusal::UnreadName)?;
    let position = position_at(context, frame.call_file, frame.call_line)?;
    Ok(Frame { name, position })
}
