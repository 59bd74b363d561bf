//! Writes a file from what it is to say (RULES, "Writing a file"): entries, files and strings, as structs that hold
//! slices. The file goes to the front of bytes that the caller lends; nothing is allocated.
//!
//!     judge    what is judged before: that the entries rise, sums, strings, types of items
//!     plan     the header's numbers, and whether counts, places and lengths are of 32 bits
//!     put      the parts, each at its place
//!     error    why a file is not written
#![tactic(auto)]

mod error;
mod judge;
mod plan;
mod put;

ghost use Rattle.std.specs.Prelude.{◌≡◌, ◌↔◌, ◌++◌, IsOk, IfOk, OnOk, OnErr, IsErrOf, length, take, drop};
ghost use Rattle.gsym_verify.specs.Check.{check_of};
ghost use Rattle.gsym_layout.specs.Layout.{layout_of};
ghost use Rattle.gsym_layout.specs.ReadBack.{SaysGiven, AnswersGiven, FoundAtOwn, ItemsInFull};
ghost use Rattle.gsym_layout.specs.Writable.{Typed};
ghost use Rattle.gsym_writer.specs.Examples.{WriteOutcomes};
ghost use Rattle.gsym_writer.specs.declared.error.WriteError.{WriteError};
ghost use Rattle.gsym_writer.specs.View.{view};
ghost use Rattle.gsym_writer.specs.Writing.{write_of};
ghost use Rattle.gsym_writer.specs.Refused.{IsFirstRefusal, IsSound};

pub use error::WriteError;
pub use gsym_parser::{FileInfo, Item};
pub use gsym_types::{Address, StrOffset};
use judge::judge;
use plan::plan_of;
use put::put_file;

/// An entry that is to be written (RULES, "Writing a file").
#[derive(Clone, Copy, Debug, PartialEq, Eq, Default, Hash)]
pub struct Entry<'a> {
    /// Where the symbol starts.
    pub addr: Address,
    /// Its size in bytes, 0 where it covers everything from its address on.
    pub size: u32,
    /// Its name.
    pub name: StrOffset,
    /// The items of its address data list.
    pub items: &'a [Item<'a>],
}

/// What a file is to say (RULES, "Writing a file").
#[derive(Clone, Copy, Debug, PartialEq, Eq, Default, Hash)]
pub struct Content<'a> {
    /// The entries, by rising address.
    pub entries: &'a [Entry<'a>],
    /// The files, as line tables and inline trees count them.
    pub files: &'a [FileInfo],
    /// The bytes of the string table.
    pub strings: &'a [u8],
}

// Judges, plans and writes.
fn write_judged(content: Content<'_>, out: &mut [u8]) -> Result<usize, WriteError>
    ensures exact { result ≡ write_of (view content.entry) (length out.old) }
    ensures written { IfOk result (λ n. (n ≡ length (layout_of (view content.entry)))
        × (out.new ≡ layout_of (view content.entry) ++ drop n out.old)) }
    ensures unchanged { OnErr result (out.new ≡ out.old) }
    ensures typed { OnOk result (Typed (view content.entry)) }
{
    judge(content)?;
    let Some(plan) = plan_of(content) else {
        return Err(WriteError::TooLarge);
    };
    if plan.len > out.len() {
        return Err(WriteError::TooLittleRoom { needed: plan.len });
    }
    Ok(put_file(out, plan.head, content))
}

/// Writes the file of `content` to the front of `out` (RULES, "Writing a file"): how many bytes it has. Those behind it
/// stay as they are.
///
/// # Errors
///
/// The first of these, each judged over all of `content` before the next: entries that don't rise (21), a sum above
/// 2^64-1 (22), a string that doesn't read (29), an item of type 0 (30), a count, place or length that is not of 32
/// bits (31), less room than the file has bytes (32, with how many). `out` stays as it is then.
pub fn write(content: Content<'_>, out: &mut [u8]) -> Result<usize, WriteError>
    // The file stands at the front of `out`, and what is behind it stays;
    ensures written { IfOk result (λ n. (n ≡ length (layout_of (view content.entry)))
        × (out.new ≡ layout_of (view content.entry) ++ drop n out.old)) }
    // and all of it, where nothing is written.
    ensures unchanged { OnErr result (out.new ≡ out.old) }
    // Nothing is written exactly for the first refusal, in the order of RULES,
    ensures refused { (e : WriteError) → IsErrOf result e ↔ IsFirstRefusal (view content.entry) (length out.old) e }
    // and a file is exactly where none holds.
    ensures sound { IsOk result ↔ IsSound (view content.entry) (length out.old) }
    // The file says what was given,
    ensures says { IfOk result (λ n. SaysGiven (view content.entry) (take n out.new)) }
    // every lookup in it answers what is given of the entry on which the address lands,
    ensures answers { IfOk result (λ n. AnswersGiven (view content.entry) (take n out.new)) }
    // which at an entry's own address is that entry;
    ensures own { IfOk result (λ n. FoundAtOwn (view content.entry) (take n out.new)) }
    // and it passes a check exactly if each line table and each inline tree in it reads in full.
    ensures passes { IfOk result (λ n. IsOk (check_of (take n out.new)) ↔ ItemsInFull (view content.entry)) }
    // All in all it is what RULES has, judged in its order.
    ensures exact { result ≡ write_of (view content.entry) (length out.old) }
{
    write_judged(content, out)
}

/// What comes of contents that are written out: a file, and each refusal, in the order of their kinds (RULES, "Writing
/// a file").
pub fn write_outcomes()
    ensures { WriteOutcomes }
{}
