//! Laws of the definitions, with no code of their own.
ghost use Rattle.std.specs.Prelude.{◌≡◌, map, not, true};
ghost use Rattle.std.specs.List.{list_all};
ghost use Rattle.gsym_strtab.specs.Utf8.{utf8, sequence_len};
ghost use Rattle.gsym_strtab.specs.Examples.{whole, broken, first_bytes, lengths};

/// Sequences at every bound of the grammar, written out, are UTF-8 or are not (RULES, "Strings").
#[tactic(auto, unfolding(crate::specs::Utf8::utf8, crate::specs::Utf8::octets, crate::specs::Utf8::followers, crate::specs::Utf8::sequence_len))]
pub fn utf8_bounds()
    ensures whole { list_all utf8 whole ≡ true }
    ensures broken { list_all (λ bytes. not (utf8 bytes)) broken ≡ true }
    ensures lengths { map sequence_len first_bytes ≡ lengths }
{}
