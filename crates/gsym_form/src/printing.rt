//! A file's text (RULES, "A file as text"), written in small pieces.
ghost use Rattle.std.specs.Prelude.{◌≡◌, ◌==◌, ◌≤◌, ◌<◌, ◌%◌, ◌&&◌, false, [], ◌∷◌, ◌++◌, length, map, codes, decimal};
ghost use Rattle.std.specs.Prelude.{is_some, slice_index, OnOk, OnErr, IfOk, IfSome, IsNone};
ghost use Rattle.std.specs.List.{flat_map, slice_split};
ghost use Rattle.std.specs.Fmt.{digits};
ghost use Rattle.std.specs.Io.KnownBytes.{Appends};
ghost use Rattle.hex.specs.Hex.{lower_digits, encode_lower};
ghost use Rattle.gsym_parser.specs.Entries.{info_at, info_view};
ghost use Rattle.gsym_parser.specs.Items.{item_view};
ghost use Rattle.gsym_parser.specs.Texts.{name_at};
ghost use Rattle.gsym_parser.specs.View.{view};
ghost use Rattle.gsym_resolver.specs.SharedTables.{shared_tables};
ghost use Rattle.gsym_output.specs.Lines.{ended, text_of};
ghost use Rattle.gsym_output.specs.Writing.{AppendsFront, Writes};
ghost use Rattle.gsym_form.specs.Pieces.{is_plain, plain_len, text_len};
ghost use Rattle.gsym_form.specs.Printed.{text_byte, quoted, hexadecimal, text_behind, string_shown, string_line};
ghost use Rattle.gsym_form.specs.Printed.{bytes_line, part_lines, table_lines, file_line, bytes_behind, item_line};
ghost use Rattle.gsym_form.specs.Printed.{item_lines, entry_line, info_lines, entry_lines, dump_of, all_read};

use gsym_output::write_text;
use gsym_parser::{AddrInfo, FileInfo, GsymContext, Item, parse_address_data};
use gsym_types::{FileIndex, StrOffset, Text};
use itoa::Buffer;
use std::alloc::Global;
use std::io::{self, Write};

// The hexadecimal digits.
const DIGITS: [u8; 16] = *b"0123456789abcdef";

// A hexadecimal digit: that of a number's last four bits.
fn digit(number: u8) -> u8
    ensures { result ≡ slice_index lower_digits (number % 16) }
{
    DIGITS[usize::from(number % 16)]
}

// The hexadecimal digits of a number.
#[tactic(auto, using(crate::proofs::HexDigits::digits_last))]
fn write_digits<W: Write>(out: &mut W, number: u128) -> io::Result<()>
    ensures { Writes (W.contents out.old) (W.contents out.new) result (digits 16 false number) }
{
    if number < 16 {
        return write_text(out, &[digit(number as u8)]);
    }
    write_digits(out, number / 16)?;
    write_text(out, &[digit((number % 16) as u8)])
}

// A number in hexadecimal digits, with `0x` before them.
#[tactic(auto, using(gsym_output::proofs::Fronts::writes_then, gsym_output::proofs::Fronts::front_of))]
fn write_hexadecimal<W: Write>(out: &mut W, number: u128) -> io::Result<()>
    ensures { Writes (W.contents out.old) (W.contents out.new) result (hexadecimal number) }
{
    write_text(out, b"0x")?;
    write_digits(out, number)
}

// A number in decimal digits.
fn write_decimal<W: Write>(out: &mut W, number: u32) -> io::Result<()>
    ensures { Writes (W.contents out.old) (W.contents out.new) result (decimal number) }
{
    let mut buffer = Buffer::new();
    write_text(out, buffer.format(number).as_bytes())
}

fn is_plain(byte: u8) -> bool
    ensures { result ≡ is_plain byte }
{
    byte != b'"' && byte != b'\\' && byte >= 32 && byte <= 126
}

// How many bytes stand before the first that a text doesn't have as it is.
fn plain_len(bytes: &[u8]) -> usize
    ensures within { result ≤ length bytes.now }
    ensures value { result ≡ plain_len bytes.now }
{
    bytes.iter().take_while(|&&byte| is_plain(byte)).count()
}

// A byte by its number.
fn write_escape<W: Write>(out: &mut W, byte: u8) -> io::Result<()>
    ensures { Writes (W.contents out.old) (W.contents out.new) result (codes "\\x" ++ encode_lower (byte ∷ [])) }
{
    write_text(out, &[b'\\', b'x', digit(byte / 16), digit(byte)])
}

// A byte of a text.
fn write_byte<W: Write>(out: &mut W, byte: u8) -> io::Result<()>
    ensures { Writes (W.contents out.old) (W.contents out.new) result (text_byte byte) }
{
    match byte {
        b'"' | b'\\' => write_text(out, &[b'\\', byte]),
        b' '..=b'~' => write_text(out, &[byte]),
        _ => write_escape(out, byte),
    }
}

// The bytes of a text.
#[tactic(auto, using(gsym_output::proofs::Fronts::leads_start, gsym_output::proofs::Fronts::leads_end))]
fn write_bytes<W: Write>(out: &mut W, bytes: &[u8]) -> io::Result<()>
    ensures { Writes (W.contents out.old) (W.contents out.new) result (flat_map text_byte bytes.now) }
{
    let mut rest = bytes;
    while !rest.is_empty() {
        let (plain, from) = rest.split_at(plain_len(rest));
        write_text(out, plain)?;
        let Some((byte, behind)) = from.split_first() else {
            return Ok(());
        };
        write_byte(out, *byte)?;
        rest = behind;
    }
    Ok(())
}

// A text in quotes.
#[tactic(auto, using(gsym_output::proofs::Fronts::writes_then, gsym_output::proofs::Fronts::front_of))]
fn write_quoted<W: Write>(out: &mut W, bytes: &[u8]) -> io::Result<()>
    ensures { Writes (W.contents out.old) (W.contents out.new) result (quoted bytes.now) }
{
    write_text(out, b"\"")?;
    write_bytes(out, bytes)?;
    write_text(out, b"\"")
}

// A line of the string table, of which a zero byte is the end.
fn write_string_line<W: Write>(out: &mut W, bytes: &[u8]) -> io::Result<()>
    ensures { Writes (W.contents out.old) (W.contents out.new) result (ended (string_line bytes.now)) }
{
    write_text(out, b"string ")?;
    write_quoted(out, bytes)?;
    write_text(out, b"\n")
}

// A line of the string table, behind whose bytes there is none.
fn write_bytes_line<W: Write>(out: &mut W, bytes: &[u8]) -> io::Result<()>
    ensures { Writes (W.contents out.old) (W.contents out.new) result (ended (bytes_line bytes.now)) }
{
    write_text(out, b"bytes ")?;
    write_quoted(out, bytes)?;
    write_text(out, b"\n")
}

// How many bytes stand before the first zero byte.
fn text_len(bytes: &[u8]) -> usize
    ensures within { result ≤ length bytes.now }
    ensures value { result ≡ text_len bytes.now }
{
    bytes.iter().take_while(|&&byte| byte != 0).count()
}

// The bytes before the first zero byte, and those behind it.
#[tactic(auto, using(crate::proofs::TextParts::split_text, crate::proofs::TextParts::split_none, crate::proofs::TextParts::text_shorter))]
fn split_text(bytes: &[u8]) -> Option<(&[u8], &[u8])>
    ensures parts { IfSome result (λ p.
        slice_split (λ c. c == 0) bytes.now ≡ p.0.now ∷ slice_split (λ c. c == 0) p.1.now) }
    ensures shorter { IfSome result (λ p. length p.1.now < length bytes.now) }
    ensures none { IsNone result → slice_split (λ c. c == 0) bytes.now ≡ bytes.now ∷ [] }
{
    let (text, from) = bytes.split_at(text_len(bytes));
    let (_zero, behind) = from.split_first()?;
    Some((text, behind))
}

// What stands behind the last zero byte, where it is any.
#[tactic(auto, unfolding(crate::specs::Printed::part_lines))]
fn write_last<W: Write>(out: &mut W, bytes: &[u8]) -> io::Result<()>
    ensures { Writes (W.contents out.old) (W.contents out.new) result (text_of (part_lines (bytes.now ∷ []))) }
{
    if bytes.is_empty() {
        return Ok(());
    }
    write_bytes_line(out, bytes)
}

// A line for each zero byte of the string table, and one for what stands behind the last.
#[tactic(auto, using(gsym_output::proofs::Fronts::leads_start))]
fn write_parts<W: Write>(out: &mut W, strings: &[u8]) -> io::Result<()>
    ensures { Writes (W.contents out.old) (W.contents out.new) result
        (text_of (part_lines (slice_split (λ c. c == 0) strings.now))) }
{
    let mut rest = strings;
    'parts: while let Some((text, behind)) = split_text(rest) {
        write_string_line(out, text)?;
        rest = behind;
    }
    write_last(out, rest)
}

// The lines of the string table.
#[tactic(auto, unfolding(crate::specs::Printed::table_lines))]
fn write_table<W: Write>(out: &mut W, strings: &[u8]) -> io::Result<()>
    ensures { Writes (W.contents out.old) (W.contents out.new) result (text_of (table_lines strings.now)) }
{
    if strings.is_empty() {
        return write_bytes_line(out, strings);
    }
    write_parts(out, strings)
}

// The text behind an offset, where it reads.
#[tactic(auto, using(gsym_output::proofs::Fronts::writes_then, gsym_output::proofs::Fronts::front_of))]
fn write_text_behind<W: Write>(out: &mut W, file: &[u8], text: Option<Text>) -> io::Result<()>
    ensures { Writes (W.contents out.old) (W.contents out.new) result (text_behind file.now text) }
{
    let Some(text) = text else {
        return Ok(());
    };
    write_text(out, b" ")?;
    write_quoted(out, gsym_strtab::text(file, text))
}

// An offset, and behind it the text where it reads.
#[tactic(auto, using(gsym_output::proofs::Fronts::writes_then, gsym_output::proofs::Fronts::front_of))]
fn write_string<W: Write>(
    out: &mut W,
    file: &[u8],
    offset: StrOffset,
    text: Option<Text>,
) -> io::Result<()>
    ensures { Writes (W.contents out.old) (W.contents out.new) result (string_shown file.now offset text) }
{
    write_text(out, b" ")?;
    write_decimal(out, offset.0)?;
    write_text_behind(out, file, text)
}

// The line of a file.
fn write_file<W: Write>(out: &mut W, context: &GsymContext<'_>, file: FileInfo) -> io::Result<()>
    ensures { Writes (W.contents out.old) (W.contents out.new) result (ended (file_line (view context.now) file)) }
{
    write_text(out, b"file")?;
    let directory = context.text_at(file.directory);
    write_string(out, context.file, file.directory, directory)?;
    let filename = context.text_at(file.filename);
    write_string(out, context.file, file.filename, filename)?;
    write_text(out, b"\n")
}

// A line for each file.
#[tactic(auto, using(gsym_output::proofs::Fronts::leads_start))]
fn write_files<W: Write>(out: &mut W, context: &GsymContext<'_>) -> io::Result<()>
    ensures { Writes (W.contents out.old) (W.contents out.new) result
        (text_of (map (file_line (view context.now)) (shared_tables (view context.now)).files)) }
{
    for index in 0..context.tables.file_count {
        let Some(file) = context.file_info(FileIndex(index)) else {
            return Ok(());
        };
        write_file(out, context, file)?;
    }
    Ok(())
}

// The bytes of an item, where it has any.
#[tactic(auto, using(gsym_output::proofs::Fronts::writes_then, gsym_output::proofs::Fronts::front_of, gsym_output::proofs::Fronts::front_none))]
fn write_bytes_behind<W: Write>(alloc: Global, bytes: &[u8], out: &mut W) -> io::Result<()>
    ensures { Writes (W.contents out.old) (W.contents out.new) result (bytes_behind bytes.now) }
{
    if bytes.is_empty() {
        return Ok(());
    }
    let digits = hex::encode(alloc, bytes)?;
    write_text(out, b" ")?;
    write_text(out, digits.as_bytes())
}

// An item's line.
fn write_item<W: Write>(alloc: Global, item: Item<'_>, out: &mut W) -> io::Result<()>
    ensures { Writes (W.contents out.old) (W.contents out.new) result (ended (item_line (item_view item.entry))) }
{
    write_text(out, b"  ")?;
    write_decimal(out, item.kind)?;
    write_bytes_behind(alloc, item.bytes, out)?;
    write_text(out, b"\n")
}

// The lines of a list, and one that says that it doesn't end in type 0.
#[tactic(auto, using(gsym_output::proofs::Fronts::leads_start))]
fn write_items<W: Write>(alloc: Global, bytes: &[u8], out: &mut W) -> io::Result<()>
    ensures { Writes (W.contents out.old) (W.contents out.new) result (text_of (item_lines bytes.now)) }
{
    let mut items = parse_address_data(bytes);
    'items: while let Some(item) = items.next() {
        write_item(alloc, item, out)?;
    }
    if items.is_closed() {
        return Ok(());
    }
    write_text(out, b"  # the list doesn't end in type 0\n")
}

// The text of a name: where it is UTF-8.
fn name_at(context: &GsymContext<'_>, offset: StrOffset) -> Option<Text>
    ensures { result ≡ name_at (view context.now) offset }
{
    context.name_at(offset)
}

// The front of an entry's line.
#[tactic(auto, using(gsym_output::proofs::Fronts::writes_then, gsym_output::proofs::Fronts::front_of))]
fn write_address<W: Write>(out: &mut W, addr: u128) -> io::Result<()>
    ensures { Writes (W.contents out.old) (W.contents out.new) result (codes "entry " ++ hexadecimal addr) }
{
    write_text(out, b"entry ")?;
    write_hexadecimal(out, addr)
}

// The line of an entry whose information reads.
fn write_entry_line<W: Write>(
    out: &mut W,
    context: &GsymContext<'_>,
    addr: u128,
    info: AddrInfo<'_>,
) -> io::Result<()>
    ensures { Writes (W.contents out.old) (W.contents out.new) result
        (ended (entry_line (view context.now) addr (info_view info.entry))) }
{
    write_address(out, addr)?;
    write_text(out, b" ")?;
    write_decimal(out, info.size)?;
    let name = name_at(context, info.name);
    write_string(out, context.file, info.name, name)?;
    write_text(out, b"\n")
}

// That of one whose information doesn't.
fn write_unread<W: Write>(out: &mut W, addr: u128) -> io::Result<()>
    ensures { Writes (W.contents out.old) (W.contents out.new) result
        (ended ((codes "entry " ++ hexadecimal addr) ++ codes " ?5")) }
{
    write_address(out, addr)?;
    write_text(out, b" ?5")?;
    write_text(out, b"\n")
}

// The lines of an entry; whether its information reads.
fn write_entry<W: Write>(
    alloc: Global,
    context: &GsymContext<'_>,
    index: usize,
    addr: u128,
    out: &mut W,
) -> io::Result<bool>
    ensures reads { IfOk result (λ reads. reads ≡ is_some (info_at (view context.now) index)) }
    ensures lines { Writes (W.contents out.old) (W.contents out.new) result
        (text_of (info_lines (view context.now) addr (info_at (view context.now) index))) }
{
    let Some(info) = context.addr_info(index) else {
        write_unread(out, addr)?;
        return Ok(false);
    };
    write_entry_line(out, context, addr, info)?;
    write_items(alloc, info.data, out)?;
    Ok(true)
}

// Whether both hold.
fn both(one: bool, other: bool) -> bool
    ensures { result ≡ (one && other) }
{
    one && other
}

// The lines of all entries; whether the information of each reads.
fn write_entries<W: Write>(
    alloc: Global,
    context: &GsymContext<'_>,
    out: &mut W,
) -> io::Result<bool>
    ensures reads { IfOk result (λ reads. reads ≡ all_read (view context.now)) }
    ensures lines { Writes (W.contents out.old) (W.contents out.new) result (text_of (entry_lines (view context.now))) }
{
    let mut all = true;
    for index in 0..context.tables.count as usize {
        let Some(entry) = context.entry(index) else {
            return Ok(all);
        };
        // Exact, so that what no lookup lands on is no other address.
        let addr = u128::from(context.tables.base.0) + u128::from(entry);
        let reads = write_entry(alloc, context, index, addr, out)?;
        all = both(all, reads);
    }
    Ok(all)
}

// The file's text; whether the information of each entry reads.
fn write_dump<W: Write>(alloc: Global, context: &GsymContext<'_>, out: &mut W) -> io::Result<bool>
    ensures reads { IfOk result (λ reads. reads ≡ all_read (view context.now)) }
    ensures text { Writes (W.contents out.old) (W.contents out.new) result (dump_of (view context.now)) }
{
    let strings = context.tables.strings;
    let table = Text {
        place: strings.place,
        len: strings.size,
    };
    write_text(out, b"gsym 1\n")?;
    write_table(out, gsym_strtab::text(context.file, table))?;
    write_files(out, context)?;
    let reads = write_entries(alloc, context, out)?;
    write_text(out, b"end\n")?;
    Ok(reads)
}

/// Prints an opened file as text (RULES, "A file as text"): whether the information of each entry reads. A table of an
/// offset size other than 1, 2, 4 and 8 has no entries. It writes in small pieces, so that a file or a pipe wants a
/// `BufWriter` before it, and takes memory for the bytes of an item at a time.
///
/// # Errors
///
/// There is no memory, or `out` can't be written.
pub fn dump<W: Write>(alloc: Global, context: &GsymContext<'_>, out: &mut W) -> io::Result<bool>
    // Whether the information of each entry reads.
    ensures reads { IfOk result (λ reads. reads ≡ all_read (view context.now)) }
    // All of the file's text is written, and nothing else.
    ensures written { OnOk result (Appends (W.contents out.old) (W.contents out.new) (dump_of (view context.now))) }
    // A front of it where the writer fails or there is no memory.
    ensures front { OnErr result (AppendsFront (W.contents out.old) (W.contents out.new)
        (dump_of (view context.now))) }
{
    write_dump(alloc, context, out)
}
