//! What each leaf answers to a case.
use crate::case::Case;
use crate::said::Said;
use crate::{blocks, lines, tables};
use gsym_leb128::Cause;
use gsym_strtab::StrTable;
use gsym_types::{Address, FileIndex, LineNumber, StrOffset, Text};

impl From<Cause> for Said {
    fn from(cause: Cause) -> Said {
        match cause {
            Cause::Short => Said::Short,
            Cause::Wide => Said::Wide,
        }
    }
}

fn number(read: Option<u64>) -> Said {
    match read {
        Some(value) => Said::value(value, 0),
        None => Said::Unread,
    }
}

// A number and the place after it.
fn reached(read: Result<(u64, usize), Cause>) -> Said {
    match read {
        Ok((value, next)) => Said::value(value, next as u64),
        Err(cause) => cause.into(),
    }
}

fn text(read: Option<Text>) -> Said {
    match read {
        Some(text) => Said::value(text.place as u64, text.len as u64),
        None => Said::Unread,
    }
}

// The length of a part and its bytes as one number, the first byte highest: for parts of up to eight bytes.
fn said_part(part: &[u8]) -> Said {
    let all = part
        .iter()
        .fold(0u64, |all, byte| all.wrapping_mul(256) | *byte as u64);
    Said::value(part.len() as u64, all)
}

fn low8(x: u64) -> u8 {
    (x & 0xff) as u8
}

fn low32(x: u64) -> u32 {
    (x & 0xffff_ffff) as u32
}

/// What the leaf of the case's kind answers; `NoLeaf` where no leaf is of that kind.
pub fn answer(case: &Case) -> Said {
    let bytes = case.bytes.as_slice();
    let (p, q, r) = (case.p, case.q, case.r);
    let (place, len) = (p as usize, q as usize);
    let table = StrTable { place, size: len };
    let (x, y) = (p.cast_signed(), q.cast_signed());
    match case.kind {
        'b' => number(gsym_reads::u8_at(bytes, place).map(|value| value as u64)),
        'h' => number(gsym_reads::u16_at(bytes, place).map(|value| value as u64)),
        'w' => number(gsym_reads::u32_at(bytes, place).map(|value| value as u64)),
        'd' => number(gsym_reads::u64_at(bytes, place)),
        'r' => Said::value(gsym_reads::left_at(bytes, place) as u64, 0),
        'u' => reached(gsym_leb128::unsigned_at(bytes, place)),
        's' => reached(gsym_leb128::signed_at(bytes, place).map(|(value, next)| (
            value.cast_unsigned(),
            next,
        ))),
        't' => text(gsym_strtab::text_at(bytes, table, StrOffset(low32(r)))),
        'n' => text(gsym_strtab::name_at(bytes, table, StrOffset(low32(r)))),
        'p' => said_part(gsym_strtab::text(bytes, Text { place, len })),
        '8' => Said::value(u64::from(gsym_strtab::is_utf8(bytes)), 0),
        'l' => Said::value(gsym_strtab::sequence_len(low8(r)) as u64, 0),
        '+' => Said::value(x.wrapping_add(y).cast_unsigned(), 0),
        '-' => Said::value(x.wrapping_sub(y).cast_unsigned(), 0),
        '/' => Said::value(gsym_linetab::quotient(low8(p), y).cast_unsigned(), 0),
        '%' => Said::value(gsym_linetab::remainder(low8(p), y).cast_unsigned(), 0),
        '6' => Said::value(gsym_linetab::addr_after(Address(p), y).0, 0),
        '3' => Said::value(
            gsym_linetab::line_after(LineNumber(low32(p)), y).0 as u64,
            0,
        ),
        'H' => lines::header(bytes),
        'o' => lines::nth_op(bytes, Address(p), q),
        'L' => lines::row(bytes, Address(p), Address(q)),
        'B' => blocks::with_room(bytes, Address(p), Address(q), r),
        'F' => blocks::nth_frame(bytes, Address(p), Address(q), r),
        'T' => tables::opening(bytes),
        'I' => tables::entry_of(bytes, Address(p)),
        'E' => tables::info(bytes, place),
        'f' => tables::file(bytes, FileIndex(low32(p))),
        'i' => tables::nth_item(bytes, place, q),
        _ => Said::NoLeaf,
    }
}
