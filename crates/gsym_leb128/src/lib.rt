//! LEB128 numbers at a place of a slice (RULES, "LEB128"): seven bits a byte, the lowest first, the top bit set where
//! another byte follows. Padding is taken up to ten bytes. A place may be any number: past the end no byte is left.
#![tactic(auto)]

ghost use Rattle.std.specs.Prelude.{◌≡◌, ◌<◌, ◌↔◌, drop, IfOk, Err};
ghost use Rattle.gsym_reads.specs.Fronts.{ReadsTo};
ghost use Rattle.gsym_leb128.specs.Answers.{unsigned_at, signed_at, unsigned_front, signed_front, EndsEarly};
ghost use Rattle.gsym_leb128.specs.Answers.{IsWideUnsigned, IsWideSigned};
ghost use Rattle.gsym_leb128.specs.Begun.{Begun};

/// Why a number doesn't read (RULES, "LEB128").
#[derive(Clone, Copy, Debug, PartialEq, Eq, PartialOrd, Ord, Hash)]
pub enum Cause {
    /// The bytes end before the number does, and fewer than ten of them were there.
    Short,
    /// The number is outside 64 bits, or its tenth byte asks for another.
    Wide,
}

// From this on a byte asks for another.
const ANOTHER: u64 = 128;

// The weight of the tenth byte, 2^63.
const TENTH: u64 = 0x8000_0000_0000_0000;

// The largest tenth byte of an unsigned number: nine bytes have 63 bits, so it adds one, and asks for no other byte.
const LARGEST_TENTH: u64 = 1;

/// The unsigned number at `at`, which is below 2^64, and the place after it (RULES, "LEB128"). `Short` where the bytes
/// end before the number does, `Wide` where it is outside 64 bits or its tenth byte asks for another.
pub fn unsigned_at(s: &[u8], at: usize) -> Result<(u64, usize), Cause>
    ensures exact { result ≡ unsigned_at s.now at }
    ensures front { ReadsTo s.now result (unsigned_front (drop at s.now)) }
    ensures past { IfOk result (λ read. at < read.1) }
    // fewer than ten bytes are there, and all ask for another
    ensures short { (result ≡ Err Cause.Short) ↔ EndsEarly (drop at s.now) }
    // ten are there, nine ask for another, and the tenth does too or the value is outside 64 bits
    ensures wide { (result ≡ Err Cause.Wide) ↔ IsWideUnsigned (drop at s.now) }
{
    // The value of the bytes passed, and the weight of the next one, which counts them.
    let mut sum: u64 = 0;
    let mut unit: u64 = 1;
    let mut i = at;
    // Nearly all numbers have one byte or two, and end here (docs/DECISIONS.md, D50). Bytes become numbers by `as`:
    // with `u64::from` the proofs didn't close.
    if i < s.len() {
        let first = s[i] as u64;
        if first < ANOTHER {
            return Ok((first, i + 1));
        }
        (sum, unit, i) = (first - ANOTHER, 128, i + 1);
        if i < s.len() {
            let second = s[i] as u64;
            if second < ANOTHER {
                return Ok((sum + second * 128, i + 1));
            }
            (sum, unit, i) = (sum + (second - ANOTHER) * 128, 128 * 128, i + 1);
        }
    }
    rest_of_unsigned(s, at, sum, unit, i)
}

// The unsigned number at `at` from its byte at `i` on, which counts `unit` times; those before it ask for others and
// come to `sum`. With 0, 1 and `at` it is the whole number. `at` is there for the promise.
fn rest_of_unsigned(
    s: &[u8],
    at: usize,
    mut sum: u64,
    mut unit: u64,
    mut i: usize,
) -> Result<(u64, usize), Cause>
    requires { Begun s.now at sum unit i }
    ensures { result ≡ unsigned_at s.now at }
{
    // Up to the ninth byte: with both bounds in one test the loop is compiled small, and into each caller.
    while i < s.len() && unit < TENTH {
        let b = s[i] as u64;
        if b < ANOTHER {
            return Ok((sum + b * unit, i + 1));
        }
        sum = sum + (b - ANOTHER) * unit;
        unit = unit * 128;
        i = i + 1;
    }
    if s.len() <= i {
        return Err(Cause::Short);
    }
    let tenth = s[i] as u64;
    if tenth <= LARGEST_TENTH {
        return Ok((sum + tenth * unit, i + 1));
    }
    Err(Cause::Wide)
}

/// The signed number at `at`, from -2^63 to 2^63-1, in two's complement of seven bits a byte, and the place after it
/// (RULES, "LEB128"). `Short` and `Wide` as for an unsigned one.
pub fn signed_at(s: &[u8], at: usize) -> Result<(i64, usize), Cause>
    ensures exact { result ≡ signed_at s.now at }
    ensures front { ReadsTo s.now result (signed_front (drop at s.now)) }
    ensures past { IfOk result (λ read. at < read.1) }
    ensures short { (result ≡ Err Cause.Short) ↔ EndsEarly (drop at s.now) }
    ensures wide { (result ≡ Err Cause.Wide) ↔ IsWideSigned (drop at s.now) }
{
    // As in `unsigned_at`; a loop that both share stays a call (docs/DECISIONS.md, D5). The bit 64 of the last byte is
    // the sign: its seven bits count from -64 to 63. It is told by arithmetic: a branch on it is hard to foresee.
    let mut low: u64 = 0;
    let mut weight: u64 = 1;
    let mut i = at;
    if i < s.len() {
        let first_byte = s[i] as u64;
        if first_byte < ANOTHER {
            let above = (first_byte + 64) % 128;
            return Ok((above.wrapping_sub(64).cast_signed(), i + 1));
        }
        (low, weight, i) = (first_byte - ANOTHER, 128, i + 1);
        if i < s.len() {
            let second_byte = s[i] as u64;
            if second_byte < ANOTHER {
                let above = low + (second_byte + 64) % 128 * 128;
                return Ok((above.wrapping_sub(64 * 128).cast_signed(), i + 1));
            }
            (low, weight, i) = (low + (second_byte - ANOTHER) * 128, 128 * 128, i + 1);
        }
    }
    rest_of_signed(s, at, low, weight, i)
}

// The signed number at `at` from its byte at `i` on, which counts `weight` times; those before it ask for others and
// come to `low`.
fn rest_of_signed(
    s: &[u8],
    at: usize,
    mut low: u64,
    mut weight: u64,
    mut i: usize,
) -> Result<(i64, usize), Cause>
    requires { Begun s.now at low weight i }
    ensures { result ≡ signed_at s.now at }
{
    while i < s.len() && weight < TENTH {
        let b = s[i] as u64;
        if b < ANOTHER {
            let above = low + (b + 64) % 128 * weight;
            return Ok((above.wrapping_sub(64 * weight).cast_signed(), i + 1));
        }
        low = low + (b - ANOTHER) * weight;
        weight = weight * 128;
        i = i + 1;
    }
    if i < s.len() {
        // Nine bytes have 63 bits, so a tenth one adds the sign alone: all its bits are clear, or all are set.
        return match s[i] {
            0 => Ok((low.cast_signed(), i + 1)),
            127 => Ok(((low + TENTH).cast_signed(), i + 1)),
            _ => Err(Cause::Wide),
        };
    }
    Err(Cause::Short)
}
