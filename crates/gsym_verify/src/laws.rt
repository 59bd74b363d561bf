//! Laws of the definitions that contracts name (RULES, "Checking a file"). Nothing runs here: each function's clauses
//! are about the definitions alone.
ghost use Rattle.std.specs.Prelude.{◌≡◌, ℕ, true, List, Ok};
ghost use Rattle.gsym_parser.specs.View.{View};
ghost use Rattle.gsym_parser.specs.Header.{opened_of};
ghost use Rattle.gsym_parser.specs.Search.{is_width};
ghost use Rattle.gsym_verify.specs.Check.{check_of};
ghost use Rattle.gsym_verify.specs.Content.{content_of};
ghost use Rattle.gsym_verify.specs.Examples.{CheckedFiles};
ghost use Rattle.gsym_verify.specs.Good.{Good};
ghost use Rattle.gsym_verify.specs.Passed.{NamesFound, PositionsFound, CodeInfoFound};

/// In a file that passed a lookup without code info is refused with 1 alone; with code info also with 7 and 8, for a
/// position; with inlining too also with 6, for a frame's name, and with 14, for more frames than room (RULES,
/// "Checking a file").
pub fn passed_answers()
    ensures names { (file : List ℕ) → Good file → NamesFound file }
    ensures positions { (file : List ℕ) → Good file → PositionsFound file }
    ensures code_info { (file : List ℕ) → Good file → CodeInfoFound file }
{}

/// Behind the faults of its tables a check depends on what the file says alone: on the symbols' addresses, what their
/// data say, and the strings (RULES, "Checking a file").
pub fn check_of_content()
    ensures { (a b : List ℕ) (v w : View) → opened_of a ≡ Ok v → opened_of b ≡ Ok w
        → is_width v.tables.offset_size ≡ true → is_width w.tables.offset_size ≡ true
        → content_of v ≡ content_of w → check_of a ≡ check_of b }
{}

/// What is found in files that are written out (RULES, "Further examples").
pub fn check_examples()
    ensures { CheckedFiles }
{}
