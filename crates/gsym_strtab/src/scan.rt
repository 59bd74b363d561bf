//! Runs of bytes that need no judging, passed four at a time, or sixteen in names.
ghost use Rattle.std.specs.Prelude.{◌≡◌, ◌+◌, ◌<◌, ◌≤◌, length, drop, if◌then◌else◌};
ghost use Rattle.gsym_strtab.specs.Utf8.{range, within};
ghost use Rattle.gsym_strtab.specs.Steps.{run_len, count_in};

// The first place from `at` on whose byte is not one from 1 to 7f, or the end. Where a character beyond ASCII starts no
// run is tried (DECISIONS, D33). Its caller asks inside the slice.
#[inline(always)]
#[tactic(auto, using(crate::proofs::Runs::beyond_ascii))]
pub(crate) fn ascii_end(s: &[u8], at: usize) -> usize
    requires { at < length s.now }
    ensures { result ≡ at + run_len (range 1 0x7f) (drop at s.now) }
{
    if 0x80 <= s[at] {
        at
    } else {
        ascii_run_end(s, at)
    }
}

// The same, where there is a run to try: its callers have seen ASCII at `at`.
#[tactic(auto, using(crate::proofs::Counting::skip_counted))]
pub(crate) fn ascii_run_end(s: &[u8], at: usize) -> usize
    requires { at < length s.now }
    ensures { result ≡ at + run_len (range 1 0x7f) (drop at s.now) }
{
    let mut i = at;
    // By hand: a turn takes sixteen bytes, which one comparison judges (`sixteen_in`), and is no element of a slice.
    while 16 <= s.len() - i && sixteen_in(s, i) == 16 {
        i += 16;
    }
    run_end(s, i, 0x7f)
}

// How many of the sixteen bytes from `at` on are from 1 to 7f. A sum of ones is compiled to one comparison of all
// sixteen, where tests one after another stay so many tests. The callers have seen that the bytes are there. Each of
// the four functions is twice the next: one over the length would have to name half of it, and no const argument can.
#[tactic(auto, using(crate::proofs::Counting::counted_le, crate::proofs::Counting::sixteen_counted))]
fn sixteen_in(s: &[u8], at: usize) -> u8
    requires { at + 16 ≤ length s.now }
    ensures { result ≡ count_in (range 1 0x7f) 16 (drop at s.now) }
{
    let low = eight_in(s, at);
    let high = eight_in(s, at + 8);
    low + high
}

#[tactic(auto, using(crate::proofs::Counting::counted_le, crate::proofs::Counting::eight_counted))]
fn eight_in(s: &[u8], at: usize) -> u8
    requires { at + 8 ≤ length s.now }
    ensures { result ≡ count_in (range 1 0x7f) 8 (drop at s.now) }
{
    let low = four_in(s, at);
    let high = four_in(s, at + 4);
    low + high
}

#[tactic(auto, unfolding(crate::specs::Steps::count_in))]
fn four_in(s: &[u8], at: usize) -> u8
    requires { at + 4 ≤ length s.now }
    ensures { result ≡ count_in (range 1 0x7f) 4 (drop at s.now) }
{
    let first = one_in(s[at]);
    let second = one_in(s[at + 1]);
    let third = one_in(s[at + 2]);
    let fourth = one_in(s[at + 3]);
    first + second + third + fourth
}

// 1 for a byte from 1 to 7f, else 0.
fn one_in(b: u8) -> u8
    ensures { (result ≡ (if within (range 1 0x7f) b then 1 else 0)) × (result ≤ 1) }
{
    u8::from(is_between(1, 0x7f, b))
}

// The first place from `at` on whose byte is not one from 1 to `top`, or the end. Its callers start inside the slice.
// Four bytes a turn, for speed (DECISIONS, D33).
pub(crate) fn run_end(s: &[u8], at: usize, top: u8) -> usize
    requires { at ≤ length s.now }
    ensures { result ≡ at + run_len (range 1 top) (drop at s.now) }
{
    let mut i = at;
    while 4 <= s.len() - i {
        if !is_between(1, top, s[i]) {
            return i;
        }
        let second = i + 1;
        if !is_between(1, top, s[second]) {
            return second;
        }
        let third = i + 2;
        if !is_between(1, top, s[third]) {
            return third;
        }
        let fourth = i + 3;
        if !is_between(1, top, s[fourth]) {
            return fourth;
        }
        i += 4;
    }
    last_run_end(s, i, top)
}

// The same, byte by byte: where fewer than four are left. By `take_while(..).count()`, which was tried, lookups of code
// info took up to 1.0017 of the instructions.
#[tactic(auto, using(crate::proofs::Runs::skip, crate::proofs::Runs::stop, crate::proofs::Runs::over))]
fn last_run_end(s: &[u8], at: usize, top: u8) -> usize
    requires { at ≤ length s.now }
    ensures { result ≡ at + run_len (range 1 top) (drop at s.now) }
{
    let mut i = at;
    while i < s.len() {
        if !is_between(1, top, s[i]) {
            return i;
        }
        i += 1;
    }
    i
}

// Whether a byte lies in a range, its ends included.
pub(crate) fn is_between(low: u8, high: u8, b: u8) -> bool
    ensures { result ≡ within (range low high) b }
{
    (low..=high).contains(&b)
}
