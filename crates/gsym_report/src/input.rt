//! File and addresses in one input (RULES, "A report").
ghost use Rattle.std.specs.Prelude.{◌≡◌, ◌/◌, IfOk, option_map, length};
ghost use Rattle.gsym_report.specs.Input as spec;

use gsym::Address;
use std::alloc::{AllocError, Global};

/// The most addresses that an input may have.
pub const MOST_ADDRESSES: usize = 256;

/// What an input asks for (RULES, "A report").
#[derive(Debug, Drop)]
pub struct Question<'a> {
    /// The bytes of the file.
    pub file: &'a [u8],
    /// The crash address, and then the return addresses.
    pub addresses: Vec<Address>,
}

// The addresses of some bytes; what is left of fewer than 8 is passed over.
fn whole_addresses(alloc: Global, bytes: &[u8]) -> Result<Vec<Address>, AllocError>
    ensures { IfOk result (λ list. list.items ≡ spec.addresses_at (length bytes.now / 8) bytes.now) }
{
    let mut list = Vec::new(alloc);
    let mut rest = bytes;
    while let Some((front, after)) = rest.split_first_chunk::<8>() {
        list.push(Address(u64::from_le_bytes(*front)))?;
        rest = after;
    }
    Ok(list)
}

/// The addresses that some bytes are, of 8 bytes each, little-endian; `None` where they don't come out at whole ones
/// (RULES, "A report").
pub fn addresses_of(alloc: Global, bytes: &[u8]) -> Result<Option<Vec<Address>>, AllocError>
    ensures { IfOk result (λ list. option_map (λ l. l.items) list ≡ spec.addresses_of bytes.now) }
{
    if bytes.len() % 8 != 0 {
        return Ok(None);
    }
    Ok(Some(whole_addresses(alloc, bytes)?))
}

/// What an input asks for whose file may have `most` bytes: four bytes say how many the file has, then come the file
/// and up to 256 addresses; `None` where it is no such input (RULES, "A report").
pub fn question_of(
    alloc: Global,
    most: usize,
    input: &[u8],
) -> Result<Option<Question<'_>>, AllocError>
    ensures { IfOk result (λ question. option_map spec.as_lists question ≡ spec.question_of most input.now) }
{
    let Some((size, rest)) = gsym_reads::u32_front(input) else {
        return Ok(None);
    };
    let size = size as usize;
    if size > most || size > rest.len() {
        return Ok(None);
    }
    let (file, behind) = rest.split_at(size);
    if behind.len() > MOST_ADDRESSES * 8 {
        return Ok(None);
    }
    match addresses_of(alloc, behind)? {
        Some(addresses) => Ok(Some(Question { file, addresses })),
        None => Ok(None),
    }
}
