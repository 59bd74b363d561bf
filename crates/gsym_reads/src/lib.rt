//! Numbers of one, two, four and eight bytes at a place of a slice, and of four at its front, which are little-endian
//! (RULES, "Numbers"). A place may be any number: past the end no byte is left. Nothing past the slice is read.
#![tactic(auto)]

ghost use Rattle.std.specs.Prelude.{◌≡◌, ◌+◌, ◌-◌, ◌<◌, ◌↔◌, length, drop, option_map, IsNone};
ghost use Rattle.gsym_reads.specs.Fronts.{byte_front, u16_front, u32_front, u64_front, ReadsUpTo};
ghost use Rattle.gsym_reads.specs.Answers.{u8_at, u16_at, u32_at, u64_at};

/// How many bytes there are from `at` on: 0 past the end (RULES, "Numbers").
pub fn left_at(s: &[u8], at: usize) -> usize
    ensures { result ≡ length s.now - at }
{
    s.len().saturating_sub(at)
}

// A function a width: std has `from_le_bytes` on each and no trait over them, so that one for all would take it as a
// closure.

/// The byte at `at`, or `None` at the end and past it (RULES, "Numbers").
#[tactic(auto, unfolding(crate::specs::Answers::u8_at, crate::specs::Fronts::byte_front))]
pub fn u8_at(s: &[u8], at: usize) -> Option<u8>
    ensures exact { result ≡ u8_at s.now at }
    ensures front { ReadsUpTo s.now (at + 1) result (byte_front (drop at s.now)) }
    ensures short { IsNone result ↔ (length s.now < at + 1) }
{
    if left_at(s, at) < 1 {
        return None;
    }
    Some(s[at])
}

/// The number of two bytes at `at`, or `None` where fewer are left (RULES, "Numbers").
#[tactic(auto, unfolding(crate::specs::Answers::u16_at, crate::specs::Fronts::u16_front))]
pub fn u16_at(s: &[u8], at: usize) -> Option<u16>
    ensures exact { result ≡ u16_at s.now at }
    ensures front { ReadsUpTo s.now (at + 2) result (u16_front (drop at s.now)) }
    ensures short { IsNone result ↔ (length s.now < at + 2) }
{
    if left_at(s, at) < 2 {
        return None;
    }
    Some(u16::from_le_bytes([s[at], s[at + 1]]))
}

/// The number of four bytes at `at`, or `None` where fewer are left (RULES, "Numbers").
#[tactic(auto, unfolding(crate::specs::Answers::u32_at, crate::specs::Fronts::u32_front))]
pub fn u32_at(s: &[u8], at: usize) -> Option<u32>
    ensures exact { result ≡ u32_at s.now at }
    ensures front { ReadsUpTo s.now (at + 4) result (u32_front (drop at s.now)) }
    ensures short { IsNone result ↔ (length s.now < at + 4) }
{
    if left_at(s, at) < 4 {
        return None;
    }
    Some(u32::from_le_bytes([s[at], s[at + 1], s[at + 2], s[at + 3]]))
}

/// The number of eight bytes at `at`, or `None` where fewer are left (RULES, "Numbers").
#[tactic(auto, unfolding(crate::specs::Answers::u64_at, crate::specs::Fronts::u64_front))]
pub fn u64_at(s: &[u8], at: usize) -> Option<u64>
    ensures exact { result ≡ u64_at s.now at }
    ensures front { ReadsUpTo s.now (at + 8) result (u64_front (drop at s.now)) }
    ensures short { IsNone result ↔ (length s.now < at + 8) }
{
    if left_at(s, at) < 8 {
        return None;
    }
    Some(u64::from_le_bytes([
        s[at],
        s[at + 1],
        s[at + 2],
        s[at + 3],
        s[at + 4],
        s[at + 5],
        s[at + 6],
        s[at + 7],
    ]))
}

/// The number of four bytes at the front and the bytes after it, or `None` where fewer are there (RULES, "Numbers").
#[inline(always)]
#[tactic(auto, unfolding(crate::specs::Fronts::u32_front))]
pub fn u32_front(s: &[u8]) -> Option<(u32, &[u8])>
    ensures exact { option_map (λ p. (p.0, p.1.now)) result ≡ u32_front s.now }
    ensures short { IsNone result ↔ (length s.now < 4) }
{
    let (front, rest) = s.split_first_chunk::<4>()?;
    Some((u32::from_le_bytes(*front), rest))
}
