//! Laws of the definitions that contracts name. Nothing runs here: each clause is about the definitions alone.
ghost use Rattle.std.specs.Prelude.{◌≡◌, ◌⊎◌, ◌++◌, ◌<◌, ℕ, List, Option, Some, None, Ok, Err};
ghost use Rattle.gsym_leb128.specs.declared.Cause.TheVariants.{Short};
ghost use Rattle.gsym_linetab.specs.declared.LineTableRow.{LineTableRow};
ghost use Rattle.gsym_linetab.specs.declared.LineState.{LineState};
ghost use Rattle.gsym_linetab.specs.declared.Ending.{Ending};
ghost use Rattle.gsym_linetab.specs.declared.RunResult.TheVariants.{NewRow};
ghost use Rattle.gsym_linetab.specs.Machine.{header_of, step_of};
ghost use Rattle.gsym_linetab.specs.Rows.{row_for, row_from};
ghost use Rattle.gsym_linetab.specs.Reaches.{Reaches};
ghost use Rattle.gsym_linetab.specs.Examples.{TableExample, WrapExamples};

use super::{LineState, LineTableHeader};
use gsym_types::Address;

/// A whole table, byte for byte: its rows, the state at its end, and the rows of four addresses; and what wraps:
/// addresses and lines, both ways, the range, the file and the first line (RULES, "Line table").
#[tactic(auto, using(crate::specs::Examples::table_example, crate::specs::Examples::wrap_examples))]
pub fn whole_table()
    ensures table { TableExample }
    ensures wraps { WrapExamples }
{}

/// A header that is cut is short, or is that of the whole: no cut makes a number of it too wide (RULES, "Line table").
#[tactic(auto, using(crate::proofs::Cut::header_cut))]
pub fn cut_headers()
    ensures { (front rest : List ℕ) (at : ℕ)
        → (header_of front at ≡ Err Short) ⊎ (header_of front at ≡ header_of (front ++ rest) at) }
{}

/// A program may be left and gone on with: from a state that its run for an address reaches, the row is the one from
/// its start. It is none where no row was made before the end, the state there where one was, and the last row made
/// where the next is above the address (RULES, "Line table").
#[tactic(auto, using(crate::proofs::Reach::resumed, crate::proofs::Reach::none_made, crate::proofs::Reach::present_state, crate::proofs::Reach::row_before))]
pub fn left_and_gone_on_with(header: LineTableHeader, ops: &[u8], start: LineState, addr: Address)
    ensures resumed { (last : Option LineTableRow) (state : LineState)
        → Reaches header ops.now addr None start last state
        → row_for header ops.now start addr ≡ row_from header ops.now addr last state }
    ensures none { (state : LineState) (ending : Ending)
        → Reaches header ops.now addr None start None state → step_of header ops.now state ≡ Err ending
        → row_for header ops.now start addr ≡ None }
    ensures ended { (last : LineTableRow) (state : LineState) (ending : Ending)
        → Reaches header ops.now addr None start (Some last) state → step_of header ops.now state ≡ Err ending
        → row_for header ops.now start addr ≡ Some state.row }
    ensures before { (last : Option LineTableRow) (state next : LineState)
        → Reaches header ops.now addr None start last state
        → step_of header ops.now state ≡ Ok (NewRow next) → addr.0 < next.row.addr.0
        → row_for header ops.now start addr ≡ last }
{}
