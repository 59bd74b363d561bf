//! What a report looks up.
ghost use Rattle.std.specs.Prelude.{◌≡◌, Some};
ghost use Rattle.gsym_resolver.specs.Lookup.{looked_up};
ghost use Rattle.gsym.specs.Lookups.{records_in};
ghost use Rattle.gsym_report.specs.Report.{asked_for, lookup_for};

use gsym::{Address, Answer, Frame, MAX_FRAMES, Options, Refusal};

// The address that is looked up for one of the list.
fn asked_for(index: usize, address: Address) -> Option<Address>
    ensures { result ≡ asked_for index address }
{
    if index == 0 {
        return Some(address);
    }
    Some(Address(address.0.checked_sub(1)?))
}

// The answer to one of the list, with the records at the front of `frames`.
pub(crate) fn lookup_for(
    file: &[u8],
    index: usize,
    address: Address,
    frames: &mut [Frame; MAX_FRAMES],
) -> Result<Answer, Refusal>
    ensures { looked_up result (records_in result frames.new) ≡ lookup_for file.now index address }
{
    match asked_for(index, address) {
        Some(asked) => gsym::lookup(file, asked, Options::ALL, frames),
        None => Err(Refusal::UnknownAddress),
    }
}
