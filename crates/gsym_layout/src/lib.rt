//! What a written file is, byte for byte, and that it says what it was written from (RULES, "Writing a file"). Nothing
//! runs here: each function's clauses are about the definitions alone, which a writer's contract speaks of.
#![tactic(auto)]

ghost use Rattle.std.specs.Prelude.{◌≡◌, ◌↔◌, ℕ, ◌≤◌, ◌<◌, ◌^◌, true, IsOk};
ghost use Rattle.std.specs.List.{All};
ghost use Rattle.gsym_parser.specs.Search.{is_width};
ghost use Rattle.gsym_verify.specs.Check.{check_of};
ghost use Rattle.gsym_layout.specs.Examples.{WrittenFiles};
ghost use Rattle.gsym_layout.specs.Given.{Given};
ghost use Rattle.gsym_layout.specs.Layout.{offsets_of, size_of, layout_of};
ghost use Rattle.gsym_layout.specs.ReadBack.{SaysGiven, AnswersGiven, FoundAtOwn, ItemsInFull};
ghost use Rattle.gsym_layout.specs.Writable.{Typed, Writable};

/// A written file opens, and its entries, its files and its strings are those that were given: nothing is lost, and
/// nothing is added (RULES, "Writing a file").
pub fn content_comes_back()
    ensures { (g : Given) → Writable g → Typed g → SaysGiven g (layout_of g) }
{}

/// Every lookup in a written file, at any address, with any options and any room, answers what is given of the entry on
/// which the address lands (RULES, "Writing a file").
pub fn lookups_come_back()
    ensures { (g : Given) → Writable g → Typed g → AnswersGiven g (layout_of g) }
{}

/// A lookup at an entry's own address finds that entry: its address, its size and its name, and with code info what its
/// items say (RULES, "Writing a file").
pub fn found_at_own()
    ensures { (g : Given) → Writable g → Typed g → FoundAtOwn g (layout_of g) }
{}

/// The offset size has room for each address less the base, and no smaller one has (RULES, "Writing a file").
pub fn width_is_least()
    ensures known { (g : Given) → is_width (size_of g) ≡ true }
    ensures has_room { (g : Given) → Writable g → All (λ n. n < 256 ^ size_of g) (offsets_of g.entries) }
    ensures least { (g : Given) (size : ℕ) → is_width size ≡ true → All (λ n. n < 256 ^ size) (offsets_of g.entries)
        → size_of g ≤ size }
{}

/// A written file passes a check exactly if each line table and each inline tree in it reads in full (RULES, "Writing a
/// file" and "Checking a file").
pub fn written_passes()
    ensures { (g : Given) → Writable g → Typed g → IsOk (check_of (layout_of g)) ↔ ItemsInFull g }
{}

/// Files that are written out, byte for byte (RULES, "Writing a file").
pub fn written_files()
    ensures { WrittenFiles }
{}
