//! A check of a whole file before it is shipped (RULES, "Checking a file"): whether its tables read, its address table
//! never falls, and all that its entries say reads in full.
//!
//!     finding  what a check finds
//!     entries  an entry, and what its list says
//!     watch    who is told how far it is
//!     laws     theorems on the definitions, as contracts of functions that do nothing
#![tactic(auto)]

mod entries;
mod finding;
mod laws;
mod watch;

ghost use Rattle.std.specs.Prelude.{◌≡◌, ◌↔◌, IsOk, IfErr, Err};
ghost use Rattle.gsym_verify.specs.declared.finding.Finding.{Finding};
ghost use Rattle.gsym_verify.specs.Check.{check_of};
ghost use Rattle.gsym_verify.specs.Finding.{IsOfCheck};
ghost use Rattle.gsym_verify.specs.Good.{Good};
ghost use Rattle.gsym_verify.specs.Faults.{IsFirstFault};
ghost use Rattle.gsym_verify.specs.Passed.{NamesFound, PositionsFound, CodeInfoFound};

use entries::check_entries;
pub use finding::{Fault, Finding};
use gsym_parser::{GsymContext, is_width};
pub use laws::{check_examples, check_of_content, passed_answers};
use watch::Unwatched;
pub use watch::Watch;

/// Checks a whole file (RULES, "Checking a file").
///
/// # Errors
///
/// What is found first: the file doesn't open (2, 3, 4), its offset size (20), or the lowest faulty entry and there the
/// first fault (21, 5, 22, 6, then its list: 9 to 13, 15, 23, 24).
pub fn check(file: &[u8]) -> Result<(), Finding>
    // It passes exactly if it is good,
    ensures good { IsOk result ↔ Good file.now }
    // and else what is told is its first fault:
    ensures first { IfErr result (λ found. IsFirstFault file.now found) }
    // no other finding fits.
    ensures only { (found : Finding) → IsFirstFault file.now found → result ≡ Err found }
    // Of the tables 2 to 4 and 20 are told; of an entry 5 and 6, 9 to 13, 15, 21 to 24.
    ensures number { IfErr result IsOfCheck }
    // In a file that passed every lookup of a name finds it, where a symbol covers the address; one with code info
    // lacks a position at most, and one with inlining too a frame's name or room.
    ensures names { IsOk result → NamesFound file.now }
    ensures positions { IsOk result → PositionsFound file.now }
    ensures code_info { IsOk result → CodeInfoFound file.now }
    ensures exact { result ≡ check_of file.now }
{
    check_watched(file, &mut Unwatched)
}

/// [`check`], for a file whose check may take long: `watch` is told of each entry before it is judged.
///
/// # Errors
///
/// Those of [`check`], whatever `watch` does.
pub fn check_watched<W: Watch>(file: &[u8], watch: &mut W) -> Result<(), Finding>
    ensures good { IsOk result ↔ Good file.now }
    ensures first { IfErr result (λ found. IsFirstFault file.now found) }
    ensures only { (found : Finding) → IsFirstFault file.now found → result ≡ Err found }
    ensures number { IfErr result IsOfCheck }
    ensures names { IsOk result → NamesFound file.now }
    ensures positions { IsOk result → PositionsFound file.now }
    ensures code_info { IsOk result → CodeInfoFound file.now }
    ensures exact { result ≡ check_of file.now }
{
    check_in_order(file, watch)
}

// `check_watched`, held to the definition alone.
#[tactic(auto, unfolding(crate::specs::Check::check_of))]
fn check_in_order<W: Watch>(file: &[u8], watch: &mut W) -> Result<(), Finding>
    ensures { result ≡ check_of file.now }
{
    let context = match GsymContext::parse_header(file) {
        Ok(context) => context,
        Err(refusal) => return Err(Finding::Tables(refusal)),
    };
    if !is_width(context.tables.offset_size) {
        return Err(Finding::OffsetSize);
    }
    check_entries(&context, watch)
}
