//! Laws of the definitions that contracts name. Nothing runs here: each clause is about the definitions alone.
ghost use Rattle.std.specs.Prelude.{◌≡◌, ◌↔◌, ◌≤◌, ◌⊎◌, ◌-◌, ℕ, false, List, Ok, Err, IsOk};
ghost use Rattle.std.specs.List.Sorted.{IsNonDecreasing};
ghost use Rattle.std.specs.Result.{result_map_both};
ghost use Rattle.gsym_types.specs.declared.Address.{Address};
ghost use Rattle.gsym_types.specs.declared.Options.{Options};
ghost use Rattle.gsym_types.specs.declared.Refusal.{Refusal};
ghost use Rattle.gsym_types.specs.declared.Refusal.TheVariants.{UnreadLineHeader, TooManyFrames, TooWide};
ghost use Rattle.gsym_types.specs.Refusal.{number_of};
ghost use Rattle.gsym_parser.specs.Entries.{symbol_at};
ghost use Rattle.gsym_parser.specs.Search.{entries_of, Allowed, FirstOfGreatest};
ghost use Rattle.gsym_resolver.specs.Examples.{MarkedExamples};
ghost use Rattle.gsym_resolver.specs.WholeLookups.{WholeLookups};
ghost use Rattle.gsym_resolver.specs.Lookup.{LookedUp, lookup_of};
ghost use Rattle.gsym_resolver.specs.EntryData.{Entered};
ghost use Rattle.gsym_resolver.specs.SharedTables.{shared_tables};
ghost use Rattle.gsym_resolver.specs.EntryAnswer.{entry_answer};
ghost use Rattle.gsym_resolver.specs.WithPlaces.{lookup_in_values, with_texts, answer_texts};
ghost use Rattle.gsym_resolver.specs.Met.{Met};
ghost use Rattle.gsym_resolver.specs.Answered.{Answered};
ghost use Rattle.gsym_resolver.specs.Blocks.{RefusedByBlock, RefusedByHeader};

use gsym_types::{Address, Options};

/// The marked examples T1 to T12 (RULES, "Marked examples").
pub fn marked_examples()
    ensures { MarkedExamples }
{}

/// A file of one symbol, written out, and what its lookups answer: at three addresses with all options, without each of
/// them, with more and with less room than its frames need, past the symbol and below the base (RULES, "Putting the
/// answer together"); and with other items, in which a number is too wide or is cut (RULES, "Refusal numbers").
pub fn whole_lookups()
    ensures { WholeLookups }
{}

/// The whole lookup told on the places of a file is that told in values, with places last (RULES, from "Header and
/// tables" to "Putting the answer together").
#[tactic(auto, using(crate::proofs::Joined::lookup_with_places))]
pub fn told_in_values(file: &[u8], addr: Address, options: Options, room: usize)
    ensures { lookup_of file.now addr options room ≡ lookup_in_values file.now addr options room }
{}

/// A lookup is refused exactly where the condition of its refusal is met, the first in the order of RULES ("Refusal
/// numbers"), and answers exactly what the data of the entry say that the address lands on; there is an answer exactly
/// if no condition is met.
pub fn refused_or_answered()
    ensures refused { (file : List ℕ) (addr : Address) (options : Options) (room : ℕ) (r : Refusal)
        → (lookup_of file addr options room ≡ Err r) ↔ Met file addr options room r }
    ensures answered { (file : List ℕ) (addr : Address) (options : Options) (room : ℕ) (l : LookedUp)
        → (lookup_of file addr options room ≡ Ok l) ↔ Answered file addr options room l }
    ensures unmet { (file : List ℕ) (addr : Address) (options : Options) (room : ℕ)
        → IsOk (lookup_of file addr options room) ↔ ((r : Refusal) → Met file addr options room r → ⊥) }
{}

/// The entry whose data an answer says, or a refusal that comes behind its information, is allowed; in a table that
/// never falls it is the first of the greatest that aren't above the address, also where equal entries stand in a row
/// (RULES, "Finding the entry").
pub fn entry_landed_on()
    ensures allowed { (file : List ℕ) (addr : Address) (e : Entered file addr)
        → Allowed (entries_of e.view) (addr.0 - e.view.tables.base.0) e.index }
    ensures first { (file : List ℕ) (addr : Address) (e : Entered file addr) → IsNonDecreasing (entries_of e.view)
        → FirstOfGreatest (entries_of e.view) (addr.0 - e.view.tables.base.0) e.index }
{}

/// Without code info a refusal is one of 1 to 6, without inlining one of 1 to 9, or 15. From 10 to 14 it is the first
/// fault of one of the entry's inline blocks, the first that doesn't list none; 9 is the header's of one of its line
/// tables, the first that doesn't give none; and 15 is either's (RULES, "Refusal numbers" and "Calls").
pub fn refusals_by_option()
    ensures bare { (file : List ℕ) (addr : Address) (options : Options) (room : ℕ) → options.code_info ≡ false
        → (r : Refusal) → lookup_of file addr options room ≡ Err r → number_of r ≤ 6 }
    ensures plain { (file : List ℕ) (addr : Address) (options : Options) (room : ℕ) → options.inlining ≡ false
        → (r : Refusal) → lookup_of file addr options room ≡ Err r → (number_of r ≤ 9) ⊎ (number_of r ≡ 15) }
    ensures blocks { (file : List ℕ) (addr : Address) (options : Options) (room : ℕ) (r : Refusal) → 10 ≤ number_of r
        → number_of r ≤ 14 → lookup_of file addr options room ≡ Err r → RefusedByBlock file addr options room r }
    ensures header { (file : List ℕ) (addr : Address) (options : Options) (room : ℕ)
        → lookup_of file addr options room ≡ Err UnreadLineHeader
        → RefusedByHeader file addr options room UnreadLineHeader }
    ensures wide { (file : List ℕ) (addr : Address) (options : Options) (room : ℕ)
        → lookup_of file addr options room ≡ Err TooWide
        → RefusedByBlock file addr options room TooWide ⊎ RefusedByHeader file addr options room TooWide }
{}

/// More room changes nothing but that there are too many frames (RULES, "Inline tree"): a lookup with less room is
/// refused so, or is the lookup with more.
pub fn more_room()
    ensures { (room more : ℕ) → room ≤ more → (addr : Address) (options : Options) (file : List ℕ)
        → (lookup_of file addr options room ≡ Err TooManyFrames)
        ⊎ (lookup_of file addr options room ≡ lookup_of file addr options more) }
{}

/// With each text as the bytes that it stands for, a lookup depends on the shared tables, the symbol's address and the
/// data of the entry alone (RULES, "Strings" and "Putting the answer together").
pub fn texts_from_values()
    ensures { (file : List ℕ) (addr : Address) (options : Options) (room : ℕ) (e : Entered file addr)
        → result_map_both (with_texts file) (λ r. r) (lookup_of file addr options room)
        ≡ result_map_both (answer_texts (shared_tables e.view)) (λ r. r)
        (entry_answer (shared_tables e.view) (symbol_at e.view e.index) e.entry addr options room) }
{}
