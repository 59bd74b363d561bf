//! The symbol of an address, with all that is asked for, into a list that the caller lends (RULES, from "Header and
//! tables" to "Putting the answer together").
ghost use Rattle.std.specs.Prelude.{◌≡◌, ◌↔◌, ◌≤◌, ◌<◌, ◌⊎◌, false, true, length, take, drop, All, IsOk, IfOk};
ghost use Rattle.std.specs.Prelude.{IfErr, OnErr, IsErrOf};
ghost use Rattle.gsym_types.specs.declared.Refusal.{Refusal};
ghost use Rattle.gsym_types.specs.declared.Refusal.TheVariants.{UnreadLineHeader, TooWide};
ghost use Rattle.gsym_types.specs.Refusal.{number_of};
ghost use Rattle.gsym_inline.specs.Block.{room_of};
ghost use Rattle.gsym_parser.specs.Entries.{covered_by};
ghost use Rattle.gsym_resolver.specs.Lookup.{lookup_of, looked_up};
ghost use Rattle.gsym_resolver.specs.Met.{Met};
ghost use Rattle.gsym_resolver.specs.Answered.{Answered};
ghost use Rattle.gsym_resolver.specs.Blocks.{RefusedByBlock, RefusedByHeader, Listed};
ghost use Rattle.gsym.specs.Lookups.{records_in, with_records};
ghost use Rattle.gsym.specs.Names.{IsNameIn};

use gsym_types::{Address, Answer, Frame, Options, Refusal};

/// The symbol of an address with all that is asked for. Each call inlined there but the outermost, which gives the
/// symbol its name, becomes a record, written over the first ones of `frames`. There is room for as many frames as the
/// list has places, and for 64 at most; they count the one that becomes no record. Records past the count stay as they
/// are. Refused with the condition of RULES ("Refusal numbers") that is met first, 1 to 15; a refusal changes no
/// record. Without both options the list isn't touched (RULES, "Calls"). Of several symbols at one address the first in
/// the file answers, at that address and past it, and it alone (RULES, "Finding the entry").
pub fn lookup(
    file: &[u8],
    addr: Address,
    options: Options,
    frames: &mut [Frame],
) -> Result<Answer, Refusal>
    // Refused exactly where its condition is met, of several the first in the order of RULES.
    ensures refused { (r : Refusal) → IsErrOf result r
        ↔ Met file.now addr options (room_of (length frames.old)) r }
    // There is an answer exactly where no condition is met.
    ensures unmet { IsOk result
        ↔ ((r : Refusal) → Met file.now addr options (room_of (length frames.old)) r → ⊥) }
    // A refusal from 10 to 14 is the first fault of one of the entry's blocks, the first that doesn't list none.
    ensures blocks { IfErr result (λ r. 10 ≤ number_of r → number_of r ≤ 14
        → RefusedByBlock file.now addr options (room_of (length frames.old)) r) }
    // 9 is the header's of one of its line tables, the first that doesn't give none.
    ensures header { IsErrOf result UnreadLineHeader
        → RefusedByHeader file.now addr options (room_of (length frames.old)) UnreadLineHeader }
    // 15 is either's: a number there is too wide.
    ensures wide { IsErrOf result TooWide
        → RefusedByBlock file.now addr options (room_of (length frames.old)) TooWide
        ⊎ RefusedByHeader file.now addr options (room_of (length frames.old)) TooWide }
    // Without code info a refusal is one of 1 to 6, without inlining one of 1 to 9, or 15.
    ensures no_code_info { options.code_info ≡ false → IfErr result (λ r. number_of r ≤ 6) }
    ensures no_inlining { options.inlining ≡ false
        → IfErr result (λ r. (number_of r ≤ 9) ⊎ (number_of r ≡ 15)) }
    // Else name, position, size and records are what the data of the entry say that the address lands on.
    ensures answered { IfOk result (λ a.
        Answered file.now addr options (room_of (length frames.old)) (with_records a frames.new)) }
    // Where there are records, they are those of the first inline block of the entry that lists anything.
    ensures listed { IfOk result (λ a. 0 < a.count
        → Listed file.now addr options (room_of (length frames.old)) (with_records a frames.new)) }
    // The symbol covers the address, and isn't above it.
    ensures covered { IfOk result (λ a. covered_by addr a.addr a.size ≡ true) }
    ensures below { IfOk result (λ a. a.addr.0 ≤ addr.0) }
    // Its name is UTF-8 in the file, and so is that of each record.
    ensures name { IfOk result (λ a. IsNameIn file.now a.name) }
    ensures names { IfOk result (λ a. All (λ f. IsNameIn file.now f.name) (take a.count frames.new)) }
    // What is written lies in the list, and nothing else changes.
    ensures within { IfOk result (λ a. a.count ≤ length frames.new) }
    ensures stays { IfOk result (λ a. drop a.count frames.new ≡ drop a.count frames.old) }
    ensures kept { OnErr result (frames.new ≡ frames.old) }
    ensures bare { (options.code_info ≡ false) ⊎ (options.inlining ≡ false)
        → frames.new ≡ frames.old }
    ensures exact { looked_up result (records_in result frames.new)
        ≡ lookup_of file.now addr options (room_of (length frames.old)) }
{
    lookup_by(file, addr, options, frames)
}

// `lookup`, held to the definition alone.
#[inline(always)]
fn lookup_by(
    file: &[u8],
    addr: Address,
    options: Options,
    frames: &mut [Frame],
) -> Result<Answer, Refusal>
    ensures stays { IfOk result (λ a. drop a.count frames.new ≡ drop a.count frames.old) }
    ensures kept { OnErr result (frames.new ≡ frames.old) }
    ensures bare { (options.code_info ≡ false) ⊎ (options.inlining ≡ false)
        → frames.new ≡ frames.old }
    ensures exact { looked_up result (records_in result frames.new)
        ≡ lookup_of file.now addr options (room_of (length frames.old)) }
{
    if options.code_info && options.inlining {
        gsym_resolver::lookup_over(file, addr, frames)
    } else {
        gsym_resolver::lookup_plain(file, addr, options.code_info)
    }
}
