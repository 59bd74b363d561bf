//! The strings of an opened file by their offset in its string table (RULES, "Strings").
ghost use Rattle.std.specs.Prelude.{◌≡◌, ◌≢◌, ◌↔◌, Some, All, IfSome, IsSome, IsNone, IsSomeAnd, IsUtf8};
ghost use Rattle.gsym_strtab.specs.Strings.{part_of, bytes_from, EndsBeforeZero};
ghost use Rattle.gsym_parser.specs.Texts.{text_at, name_at};
ghost use Rattle.gsym_parser.specs.View.{view};

use super::GsymContext;
use gsym_types::{StrOffset, Text};

impl<'a> GsymContext<'a> {
    /// The directory or file string at an offset, which may be any bytes. None where it doesn't read (RULES,
    /// "Strings").
    #[inline(always)]
    pub fn text_at(&self, offset: StrOffset) -> Option<Text>
        ensures exact { result ≡ text_at (view self.now) offset }
        ensures string { IfSome result (λ t.
            EndsBeforeZero (bytes_from self.now.file.now self.now.tables.strings offset) t.len) }
        ensures none { IsNone result
            ↔ All (λ b. b ≢ 0) (bytes_from self.now.file.now self.now.tables.strings offset) }
    {
        gsym_strtab::text_at(self.file, self.tables.strings, offset)
    }

    /// The name at an offset. None where it doesn't read, and where it is not UTF-8 (RULES, "Strings").
    #[inline(always)]
    pub fn name_at(&self, offset: StrOffset) -> Option<Text>
        ensures exact { result ≡ name_at (view self.now) offset }
        ensures string { IfSome result (λ t. text_at (view self.now) offset ≡ Some t) }
        ensures some { IsSome result
            ↔ IsSomeAnd (text_at (view self.now) offset) (λ t. IsUtf8 (part_of self.now.file.now t.place t.len)) }
    {
        gsym_strtab::name_at(self.file, self.tables.strings, offset)
    }
}
