//! How many bytes a UTF-8 sequence has, by its first byte (RULES, "Strings").
ghost use Rattle.std.specs.Prelude.{◌≡◌};
ghost use Rattle.gsym_strtab.specs.Utf8.{sequence_len};

// 1 for 00 to 7f, 2 for c2 to df, 3 for e0 to ef, 4 for f0 to f4, else 0; Rust's library has the same. The first and
// the last entry of each run are marked.
const LENGTHS: [u8; 256] = [
    1, // 00
    1, 1, 1, 1, 1, 1, 1, 1, 1, 1, 1, 1, 1, 1, 1, 1, 1, 1, 1, 1, 1, 1, 1, 1, 1, 1, 1, 1, 1, 1, 1, 1,
    1, 1, 1, 1, 1, 1, 1, 1, 1, 1, 1, 1, 1, 1, 1, 1, 1, 1, 1, 1, 1, 1, 1, 1, 1, 1, 1, 1, 1, 1, 1, 1,
    1, 1, 1, 1, 1, 1, 1, 1, 1, 1, 1, 1, 1, 1, 1, 1, 1, 1, 1, 1, 1, 1, 1, 1, 1, 1, 1, 1, 1, 1, 1, 1,
    1, 1, 1, 1, 1, 1, 1, 1, 1, 1, 1, 1, 1, 1, 1, 1, 1, 1, 1, 1, 1, 1, 1, 1, 1, 1, 1, 1, 1, 1, 1, // 7f
    0, // 80
    0, 0, 0, 0, 0, 0, 0, 0, 0, 0, 0, 0, 0, 0, 0, 0, 0, 0, 0, 0, 0, 0, 0, 0, 0, 0, 0, 0, 0, 0, 0, 0,
    0, 0, 0, 0, 0, 0, 0, 0, 0, 0, 0, 0, 0, 0, 0, 0, 0, 0, 0, 0, 0, 0, 0, 0, 0, 0, 0, 0, 0, 0, 0, 0,
    0, // c1
    2, // c2
    2, 2, 2, 2, 2, 2, 2, 2, 2, 2, 2, 2, 2, 2, 2, 2, 2, 2, 2, 2, 2, 2, 2, 2, 2, 2, 2, 2, 2, // df
    3, // e0
    3, 3, 3, 3, 3, 3, 3, 3, 3, 3, 3, 3, 3, 3, 3, // ef
    4, // f0
    4, 4, 4, 4, // f4
    0, // f5
    0, 0, 0, 0, 0, 0, 0, 0, 0, 0, // ff
];

/// The length of the sequence that a byte starts, or 0 where it starts none (RULES, "Strings").
// A number and no `Option`: 0 is what the table of RULES itself has there.
pub fn sequence_len(b: u8) -> u8
    ensures { result ≡ sequence_len b }
{
    LENGTHS[usize::from(b)]
}
