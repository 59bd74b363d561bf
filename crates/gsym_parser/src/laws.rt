//! What the definitions say of a small file (RULES, "Header and tables" to "Address data list"). Nothing runs here: the
//! clause is about the definitions alone.
ghost use Rattle.gsym_parser.specs.Examples.{SmallFile};

/// A file of three entries, written out: where its tables stand, the entries of addresses, and what they say; and which
/// entry is found in tables with equal entries and in some that fall (RULES, "Further examples").
pub fn small_file()
    ensures { SmallFile }
{}
