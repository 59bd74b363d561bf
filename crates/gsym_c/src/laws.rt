//! What the definitions say of a few numbers written out (RULES, "Calls"). Nothing runs here: the clause is about the
//! definitions alone.
ghost use Rattle.gsym_c.specs.Examples.{OptionBits};

/// What the bits ask for: bit 0 for code info, bit 1 for inlining, others for nothing (RULES, "Calls").
pub fn option_bits()
    ensures { OptionBits }
{}
