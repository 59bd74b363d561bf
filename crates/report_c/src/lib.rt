//! The report of a crash for programs that measure and try it from C or Rust: it only hands its arguments on. An object
//! of its own, so that the code of `reader_c` is not another for it.
#![tactic(auto)]

ghost use Rattle.std.specs.Prelude.{◌≡◌, ◌≢◌, ◌-◌, ◌^◌, length};
ghost use Rattle.gsym_report.specs.Report.{report_of};

mod page;

use gsym_report::Address;
use page::Page;

/// The report of a file and of addresses, first the crash address, then return addresses, to the front of `room`:
/// `gsym_report::write_report` (RULES, "A report"). How many bytes it has; 2^64-1 where it doesn't fit, and `room` then
/// begins with a front of it.
#[unsafe(no_mangle)]
pub extern "C" fn gsym_report(file: &[u8], addresses: &[Address], room: &mut [u8]) -> usize
    ensures { result ≢ 2 ^ 64 - 1 → result ≡ length (report_of file.now addresses.now) }
{
    let mut page = Page { room, len: 0 };
    match gsym_report::write_report(file, addresses, &mut page) {
        Ok(_refused) => page.len,
        Err(_) => usize::MAX,
    }
}
