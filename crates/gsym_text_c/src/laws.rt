//! What the definitions say of a few numbers written out (RULES, "What the tools print"). Nothing runs here: the clause
//! is about the definitions alone.
ghost use Rattle.gsym_text_c.specs.Examples.{ViewBits};

/// What the bits of a view ask for: bits 0 to 7, each alone, all of them, and others, which ask for nothing (RULES,
/// "What the tools print").
pub fn view_bits()
    ensures { ViewBits }
{}
