//! What the definitions say of every report (RULES, "A report"). Nothing runs here: the clauses are about the
//! definitions alone.
ghost use Rattle.std.specs.Prelude.{◌≡◌, ◌≢◌, ◌<◌, ◌-◌, ◌++◌, ◌∷◌, [], ℕ, List, All, map, codes, length};
ghost use Rattle.gsym_types.specs.declared.Address.{Address};
ghost use Rattle.gsym_resolver.specs.Lookup.{lookup_of, all_options};
ghost use Rattle.gsym_output.specs.Lines.{text_of};
ghost use Rattle.gsym_report.specs.Report.{said_of, line_of, lines_of, report_lines, report_of};
ghost use Rattle.gsym_report.specs.Laws.{IsPlain, address};
ghost use Rattle.gsym_report.specs.Examples.{ReportExamples};

/// No control byte is in any line, whatever stands in the file; so a report is parted into its lines by its newlines,
/// and no name makes a line of its own (RULES, "A report").
pub fn plain_reports()
    ensures { (file : List ℕ) (addresses : List Address) → All IsPlain (report_lines file addresses) }
{}

/// Which lookup the lines of an address are of, and that each address has its lines, in order (RULES, "A report").
pub fn report_laws()
    // Of no address there is no line, and each address has one at least.
    ensures none { (file : List ℕ) → report_of file [] ≡ [] }
    ensures answered { (file : List ℕ) (index : ℕ) (a : Address) → lines_of file index a ≢ [] }
    // The crash address is looked up as it stands, each other one lower: with code info, inlining and room for 64.
    ensures crash { (file : List ℕ) (n : ℕ) → lines_of file 0 (address n)
        ≡ map (line_of 0) (said_of file (lookup_of file (address n) all_options 64)) }
    ensures returned { (file : List ℕ) (index n : ℕ) → 0 < index → 0 < n
        → lines_of file index (address n)
        ≡ map (line_of index) (said_of file (lookup_of file (address (n - 1)) all_options 64)) }
    // A return address of 0 is refused with 1, whatever the file is.
    ensures zero { (file : List ℕ) (index : ℕ) → 0 < index
        → lines_of file index (address 0) ≡ line_of index (codes "?1") ∷ [] }
    // Of one address more, what is written before stays, and its lines follow.
    ensures more { (file : List ℕ) (addresses : List Address) (a : Address)
        → report_of file (addresses ++ a ∷ [])
        ≡ report_of file addresses ++ text_of (lines_of file (length addresses) a) }
{}

/// Reports and inputs that are written out byte for byte (RULES, "A report").
pub fn report_examples()
    ensures { ReportExamples }
{}
