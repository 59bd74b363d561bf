//! What the definitions say of texts (RULES, "A file as text"). Nothing runs here: the clauses are about the
//! definitions alone.
ghost use Rattle.std.specs.Prelude.{◌≡◌, ◌↔◌, ◌<◌, ◌^◌, ℕ, true, List, All, Ok, IsOk};
ghost use Rattle.gsym_parser.specs.View.{View};
ghost use Rattle.gsym_parser.specs.Header.{opened_of};
ghost use Rattle.gsym_parser.specs.Search.{addresses_of};
ghost use Rattle.gsym_form.specs.Printed.{dump_of, all_read};
ghost use Rattle.gsym_form.specs.Said.{Said, text_said};
ghost use Rattle.gsym_form.specs.Form.{given_by};
ghost use Rattle.gsym_form.specs.Parsed.{form_said, given_said};
ghost use Rattle.gsym_form.specs.declared.form.Form.{Form};
ghost use Rattle.gsym_form.specs.Examples.{ReadExamples, PrintExamples};
ghost use Rattle.gsym_form.specs.Again.{AreBytes, SaysAgain, MadeAgain};

/// What is printed of a file, and read again, says the same: the string table, byte for byte, the files, and for each
/// entry of the address table, in their order, its address, size, name and items. So it is of every file that opens,
/// whose entries' information reads, and whose addresses are at most 2^64-1 (RULES, "A file as text").
pub fn text_reads_back()
    ensures { (file : List ℕ) (v : View) → AreBytes file → opened_of file ≡ Ok v → all_read v ≡ true
        → All (λ a. a < 2 ^ 64) (addresses_of v) → SaysAgain v }
{}

/// What is printed of a file reads exactly if the information of each of its entries does and no address is above
/// 2^64-1: else a line of it is wrong, so that no file is made of it (RULES, "A file as text").
pub fn reads_exactly()
    ensures { (file : List ℕ) (v : View) → AreBytes file → opened_of file ≡ Ok v →
        IsOk (text_said (dump_of v)) ↔ ((all_read v ≡ true) × All (λ a. a < 2 ^ 64) (addresses_of v)) }
{}

/// The file that is written from what was printed of any file, and read again, answers every lookup as that file does:
/// at any address, with any options and any room, each text byte for byte (RULES, "A file as text"). Where the text is
/// wrong, or what it says is refused, none is written.
pub fn made_again()
    ensures { (file : List ℕ) (v : View) → AreBytes file → opened_of file ≡ Ok v → (said : Said)
        → text_said (dump_of v) ≡ Ok said → MadeAgain file said }
{}

/// What a form gives to be written is what it says: so the file that `Form::file` gives of what `parse` read is the one
/// of which `made_again` speaks.
pub fn written_as_said()
    ensures { (f : Form) → given_by f ≡ given_said (form_said f) }
{}

/// Texts that are written out, and what they say (RULES, "A file as text").
pub fn text_examples()
    ensures read { ReadExamples }
    ensures printed { PrintExamples }
{}
