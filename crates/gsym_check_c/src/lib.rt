//! The check of a whole file for C hosts, over `gsym_verify`. An object of its own in libgsym.a, which a host that only
//! looks up doesn't link.
#![tactic(auto)]

ghost use Rattle.std.specs.Prelude.{◌≡◌, ◌≢◌, ◌↔◌, ◌≤◌};
ghost use Rattle.gsym_verify.specs.declared.finding.Finding.{Finding};
ghost use Rattle.gsym_verify.specs.Check.{check_of};
ghost use Rattle.gsym_verify.specs.Faults.{IsFirstFault};
ghost use Rattle.gsym_verify.specs.Good.{Good};
ghost use Rattle.gsym_verify.specs.Passed.{NamesFound, PositionsFound, CodeInfoFound};
ghost use Rattle.gsym_check_c.specs.Found.{found_as, laid, IsOfFinding};

use gsym_verify::Finding;

/// What a check found, as C has it (RULES, "Checking a file").
#[repr(C)]
#[derive(Clone, Copy, Debug, PartialEq, Eq, Default, Hash)]
pub struct GsymFinding {
    /// 0 where the file passes, and else the number of what was found.
    // A number, and no `Result`: the C interface, whose hosts test it.
    pub number: u32,
    /// The lowest faulty entry, counted from 0; 0 where the file passes, and where its tables are at fault.
    pub entry: u32,
}

impl From<Result<(), Finding>> for GsymFinding {
    ghost from_gives = { λ said c. c ≡ laid said };

    fn from(said: Result<(), Finding>) -> GsymFinding {
        match said {
            Ok(()) => GsymFinding {
                number: 0,
                entry: 0,
            },
            Err(finding) => GsymFinding {
                number: u32::from(finding.number()),
                entry: match finding {
                    Finding::Entry { index, .. } => index,
                    _ => 0,
                },
            },
        }
    }
}

/// Checks a whole file: `gsym_verify::check`. The number is 0 where it passes, and else that of what is found first
/// (RULES, "Checking a file").
#[unsafe(no_mangle)]
pub extern "C" fn gsym_check_2(file: &[u8]) -> GsymFinding
    // 0 exactly if the file is good,
    ensures passes { (result.number ≡ 0) ↔ Good file.now }
    // and else what is found first, of which there is one.
    ensures found { (finding : Finding) → IsFirstFault file.now finding → result ≡ found_as finding }
    ensures one { result.number ≢ 0
        → (finding : Finding) × IsFirstFault file.now finding × (result ≡ found_as finding) }
    // Of the tables 2 to 4 and 20 are told, of an entry 5 and 6, 9 to 13, 15, 21 to 24, and an entry of these alone.
    ensures number { IsOfFinding result.number }
    ensures entry { result.entry ≢ 0 → (5 ≤ result.number) × (result.number ≢ 20) }
    // In a file that passed every lookup of a name finds it, where a symbol covers the address; one with code info
    // lacks a position at most, and one with inlining too a frame's name or room.
    ensures names { result.number ≡ 0 → NamesFound file.now }
    ensures positions { result.number ≡ 0 → PositionsFound file.now }
    ensures code_info { result.number ≡ 0 → CodeInfoFound file.now }
    ensures exact { result ≡ laid (check_of file.now) }
{
    GsymFinding::from(gsym_verify::check(file))
}
