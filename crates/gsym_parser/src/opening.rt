//! Opening a file: its header, and where its tables stand (RULES, "Header and tables").
ghost use Rattle.std.specs.Prelude.{◌≡◌, ◌↔◌};
ghost use Rattle.std.specs.Result.{result_map_both, IsErrOf};
ghost use Rattle.gsym_types.specs.declared.Refusal.{Refusal};
ghost use Rattle.gsym_parser.specs.Numbers.{numbers_of};
ghost use Rattle.gsym_parser.specs.Header.{tables_of, opened_of};
ghost use Rattle.gsym_parser.specs.View.{view};
ghost use Rattle.gsym_parser.specs.Unopened.{Unopened};

use super::{GsymContext, HEADER_LEN, MAGIC, Tables, VERSION};
use gsym_strtab::StrTable;
use gsym_types::{Address, Refusal};

// The numbers of the header that are kept. The string table's place is its offset from the file's start. Nothing prints
// or compares them.
#[derive(Clone, Copy)]
pub(crate) struct Header {
    pub offset_size: u8,
    pub base: Address,
    pub count: u32,
    pub strings_offset: u32,
    pub strings_size: u32,
}

impl<'a> GsymContext<'a> {
    /// Opens a file. Refused is a wrong magic, judged once 4 bytes are there; a version other than 1, judged once 6
    /// are; and too few bytes for the header, a table or the string table (RULES, "Header and tables").
    pub fn parse_header(file: &'a [u8]) -> Result<GsymContext<'a>, Refusal>
        // Refused exactly for what is missing or wrong first, in the order in which RULES judges.
        ensures refused { (r : Refusal) → IsErrOf result r ↔ Unopened file.now r }
        ensures exact { result_map_both view (λ r. r) result ≡ opened_of file.now }
    {
        GsymContext::open(file)
    }

    // `parse_header`, held to the definition alone.
    #[inline(always)]
    #[tactic(auto, unfolding(crate::specs::Header::opened_of))]
    fn open(file: &'a [u8]) -> Result<GsymContext<'a>, Refusal>
        ensures { result_map_both view (λ r. r) result ≡ opened_of file.now }
    {
        let magic = gsym_reads::u32_at(file, 0).ok_or(Refusal::TooFewBytes)?;
        if magic != MAGIC {
            return Err(Refusal::WrongMagic);
        }
        let version = gsym_reads::u16_at(file, 4).ok_or(Refusal::TooFewBytes)?;
        if version != VERSION {
            return Err(Refusal::WrongVersion);
        }
        let header = file
            .first_chunk::<HEADER_LEN>()
            .ok_or(Refusal::TooFewBytes)?;
        let tables = place_tables(file, header_numbers(header))?;
        Ok(GsymContext { file, tables })
    }
}

// The header's numbers.
#[tactic(auto, unfolding(crate::specs::Numbers::numbers_of))]
fn header_numbers(bytes: &[u8; HEADER_LEN]) -> Header
    ensures { result ≡ numbers_of bytes.now }
{
    Header {
        offset_size: bytes[6],
        base: Address(u64::from_le_bytes([
            bytes[8], bytes[9], bytes[10], bytes[11], bytes[12], bytes[13], bytes[14], bytes[15],
        ])),
        count: u32::from_le_bytes([bytes[16], bytes[17], bytes[18], bytes[19]]),
        strings_offset: u32::from_le_bytes([bytes[20], bytes[21], bytes[22], bytes[23]]),
        strings_size: u32::from_le_bytes([bytes[24], bytes[25], bytes[26], bytes[27]]),
    }
}

// Where the tables stand. No sum wraps: the count is below 2^32 and an entry below 2^8 bytes, so the address table ends
// below 2^40 + 48; data offsets and files add less than 2^34 and 2^35, and the largest sum, `files_end`, is below 2^41.
// File and header stand side by side here alone: of the two the opened file is made.
#[tactic(auto, unfolding(crate::specs::Header::tables_of))]
fn place_tables(file: &[u8], header: Header) -> Result<Tables, Refusal>
    ensures { result ≡ tables_of file.now header }
{
    let size = usize::from(header.offset_size);
    let count = header.count as usize;
    let addrs_end = HEADER_LEN + count * size;
    let offsets = addrs_end.next_multiple_of(4);
    let offsets_end = offsets + count * 4;
    let file_count = gsym_reads::u32_at(file, offsets_end).ok_or(Refusal::TooFewBytes)?;
    let files = offsets_end + 4;
    let rows = file_count as usize;
    let files_end = files + rows * 8;
    if file.len() < files_end {
        return Err(Refusal::TooFewBytes);
    }
    let place = header.strings_offset as usize;
    let len = header.strings_size as usize;
    let strings_end = place + len;
    if file.len() < strings_end {
        return Err(Refusal::TooFewBytes);
    }
    Ok(Tables {
        offset_size: header.offset_size,
        base: header.base,
        count: header.count,
        addrs: HEADER_LEN,
        offsets,
        file_count,
        files,
        strings: StrTable { place, size: len },
    })
}
