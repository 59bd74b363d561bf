//! The entry of an address: a halving search on the address table in place, and then to the front over equal entries
//! (RULES, "Finding the entry").
ghost use Rattle.std.specs.Prelude.{◌≡◌, ◌+◌, ◌-◌, ◌*◌, ◌<◌, ◌≤◌, ◌⊎◌, ◌↔◌, ℕ, true, false, Option, Some, length, drop};
ghost use Rattle.std.specs.Prelude.{slice_index, slice_get, option_map, IsNone, IfSome};
ghost use Rattle.std.specs.List.Sorted.{IsNonDecreasing};
ghost use Rattle.gsym_parser.specs.Search.{is_width, entry_number, len_of, entries, find_in, find_of, entries_of};
ghost use Rattle.gsym_parser.specs.Search.{halved_from, run_start, Nowhere, Allowed, FirstOfGreatest, with_entry};
ghost use Rattle.gsym_parser.specs.Search.{land_of, addresses_of};
ghost use Rattle.gsym_parser.specs.Entries.{symbol_at};
ghost use Rattle.gsym_parser.specs.View.{view};

use super::GsymContext;
use gsym_types::Address;

/// An entry of the address table that was found (RULES, "Finding the entry").
#[derive(Clone, Copy, Debug, PartialEq, Eq, Default, Hash)]
pub struct Found {
    /// Its index, counted from 0.
    pub index: usize,
    /// Where its symbol starts: the base plus the entry.
    pub symbol: Address,
}

impl<'a> GsymContext<'a> {
    /// The entry that is chosen for an address: in a table that never falls the first of the greatest that aren't above
    /// it, also where equal entries stand in a row. None for an address below the base, at an offset size other than 1,
    /// 2, 4 and 8, where there are no entries, and where the first entry is above the address minus the base (RULES,
    /// "Finding the entry"). Takes the time of halving and of the equal entries before the one that halving comes to.
    #[inline(always)]
    pub fn find_addr(&self, addr: Address) -> Option<Found>
        // In every table an entry that isn't above; the one before it differs, and the next that differs is above.
        ensures allowed { IfSome result (λ f.
            Allowed (entries_of (view self.now)) (addr.0 - self.now.tables.base.0) f.index) }
        // The symbol's address isn't above the address.
        ensures below { IfSome result (λ f. f.symbol.0 ≤ addr.0) }
        // In a table that never falls: of those that aren't above the greatest, and of equal ones the first,
        ensures first { IsNonDecreasing (entries_of (view self.now)) → IfSome result (λ f.
            FirstOfGreatest (entries_of (view self.now)) (addr.0 - self.now.tables.base.0) f.index) }
        // and no other entry is allowed.
        ensures only { IsNonDecreasing (entries_of (view self.now)) → self.now.tables.base.0 ≤ addr.0 → (i : ℕ) →
            Allowed (entries_of (view self.now)) (addr.0 - self.now.tables.base.0) i
            → option_map (λ f. f.index) result ≡ Some i }
        // It is that first one among the entries' addresses, too, counted along them.
        ensures lands { IsNonDecreasing (entries_of (view self.now)) →
            option_map (λ f. f.index) result ≡ land_of (addresses_of (view self.now)) addr.0 }
        // None exactly in the four cases of RULES.
        ensures none { IsNone result ↔ Nowhere (view self.now) addr }
        // The symbol's address is the base plus the entry; that sum doesn't pass 2^64-1.
        ensures entry { IfSome result (λ f. (f.symbol ≡ symbol_at (view self.now) f.index)
            × (f.symbol.0 ≡ self.now.tables.base.0 + slice_index (entries_of (view self.now)) f.index)) }
        ensures exact { option_map (λ f. f.index) result ≡ find_of (view self.now) addr }
    {
        let (index, entry) = self.search(addr)?;
        Some(Found {
            index,
            symbol: Address(self.tables.base.0 + entry),
        })
    }

    // The index of the entry that is chosen for an address, and the entry itself. The search is compiled for each
    // offset size, so that no turn of the halving asks for that (DECISIONS, D48).
    #[tactic(auto, unfolding(crate::specs::Search::find_of, crate::specs::Search::entries_of))]
    fn search(&self, addr: Address) -> Option<(usize, u64)>
        ensures { result ≡ with_entry (entries_of (view self.now)) (find_of (view self.now) addr) }
    {
        if addr.0 < self.tables.base.0 {
            return None;
        }
        let wanted = addr.0 - self.tables.base.0;
        let table = &self.file[self.tables.addrs..];
        let n = self.tables.count as usize;
        match self.tables.offset_size {
            1 => find_in(table, 1, n, wanted),
            2 => find_in(table, 2, n, wanted),
            4 => find_in(table, 4, n, wanted),
            8 => find_in(table, 8, n, wanted),
            _ => None,
        }
    }

    /// An entry of the address table as the file has it: an address less the base. None where the index is not below
    /// the count, and at an offset size other than 1, 2, 4 and 8 (RULES, "Finding the entry").
    #[tactic(auto, using(crate::proofs::Table::entry_past, crate::proofs::Table::entry_there))]
    pub fn entry(&self, index: usize) -> Option<u64>
        ensures exact { result ≡ slice_get (entries_of (view self.now)) index }
        ensures none { IsNone result
            ↔ (self.now.tables.count ≤ index) ⊎ (is_width self.now.tables.offset_size ≡ false) }
    {
        let size = self.tables.offset_size;
        if index >= table_len(size, self.tables.count) {
            return None;
        }
        Some(entry_at(&self.file[self.tables.addrs..], size, index))
    }

    /// The address of an entry's symbol: the base plus the entry, modulo 2^64; the base alone where there is no such
    /// entry (RULES, "Finding the entry").
    #[tactic(auto, unfolding(crate::specs::Entries::symbol_at))]
    pub fn addr_at(&self, index: usize) -> Address
        ensures { result ≡ symbol_at (view self.now) index }
    {
        let entry = self.entry(index).unwrap_or(0);
        Address(self.tables.base.0.wrapping_add(entry))
    }
}

// How many entries there are: none at an offset size other than 1, 2, 4 or 8.
fn table_len(size: u8, count: u32) -> usize
    ensures { result ≡ len_of size count }
{
    if is_width(size) { count as usize } else { 0 }
}

/// Whether an offset size is 1, 2, 4 or 8 (RULES, "Finding the entry").
pub fn is_width(size: u8) -> bool
    ensures { result ≡ is_width size }
{
    matches!(size, 1 | 2 | 4 | 8)
}

// Entry i of a table. Its callers ask below the number of entries, and at one of the four sizes: where the code names
// which, as the halving does, no test of it is left.
fn entry_at(table: &[u8], size: u8, i: usize) -> u64
    requires width { is_width size ≡ true }
    requires inside { i * size + size ≤ length table.now }
    ensures { result ≡ entry_number size (drop (i * size) table.now) }
{
    match size {
        1 => u64::from(table[i]),
        2 => {
            let at = i * 2;
            u64::from(u16::from_le_bytes([table[at], table[at + 1]]))
        }
        4 => {
            let at = i * 4;
            u64::from(u32::from_le_bytes([table[at], table[at + 1], table[at + 2], table[at + 3]]))
        }
        _ => {
            let at = i * 8;
            u64::from_le_bytes([
                table[at],
                table[at + 1],
                table[at + 2],
                table[at + 3],
                table[at + 4],
                table[at + 5],
                table[at + 6],
                table[at + 7],
            ])
        }
    }
}

// The index of the entry that is chosen among n, and the entry itself: halving comes to the last of its run.
#[inline(always)]
fn find_in(table: &[u8], size: u8, n: usize, wanted: u64) -> Option<(usize, u64)>
    requires width { is_width size ≡ true }
    requires inside { n * size ≤ length table.now }
    ensures { result ≡ with_entry (entries size n table.now) (find_in (entries size n table.now) wanted) }
{
    if n == 0 {
        return None;
    }
    let first = entry_at(table, size, 0);
    if wanted < first {
        return None;
    }
    let (last, entry) = halve(table, size, n, wanted);
    // Mostly the entry before it differs: seen here, that costs no call.
    if last == 0 || entry_at(table, size, last - 1) != entry {
        return Some((last, entry));
    }
    let start = run_start(table, size, last, entry);
    Some((start, entry))
}

// The index that halving comes to, and the entry there. By hand: std's binary search asks a slice of numbers, and the
// table is bytes, of numbers of four widths.
// Whether a turn moves can't be foreseen, so nothing should branch on it. The entry at `lo` is kept beside `lo`: where
// one test moves an index and a number just read, the compiler makes conditional moves of it, and where it moves an
// index alone, a branch (DECISIONS, D29).
#[inline(always)]
fn halve(table: &[u8], size: u8, n: usize, wanted: u64) -> (usize, u64)
    requires width { is_width size ≡ true }
    requires inside { n * size ≤ length table.now }
    requires some { 0 < n }
    ensures index { result.0 ≡ halved_from (entries size n table.now) wanted 0 n }
    ensures within { result.0 < n }
    ensures entry { result.1 ≡ entry_number size (drop (result.0 * size) table.now) }
{
    let (mut lo, mut kept, mut len) = halve_in_pairs(table, size, n, wanted);
    while 1 < len {
        let half = len / 2;
        let entry = entry_at(table, size, lo + half);
        if entry <= wanted {
            lo += half;
            kept = entry;
        }
        len -= half;
    }
    (lo, kept)
}

// Halving until no more than sixteen entries are left, which mostly lie together: the first of them, the entry there,
// and how many they are. Two turns at once, so that memory is waited for once: both entries that the second turn may
// ask for are read before the first has said which of them it is (DECISIONS, D48).
#[inline(always)]
fn halve_in_pairs(table: &[u8], size: u8, n: usize, wanted: u64) -> (usize, u64, usize)
    requires width { is_width size ≡ true }
    requires inside { n * size ≤ length table.now }
    requires some { 0 < n }
    ensures same { halved_from (entries size n table.now) wanted 0 n
        ≡ halved_from (entries size n table.now) wanted result.0 result.2 }
    ensures left { (1 ≤ result.2) × (result.0 + result.2 ≤ n) }
    ensures entry { result.1 ≡ slice_index (entries size n table.now) result.0 }
{
    let mut lo = 0;
    let mut kept = entry_at(table, size, 0);
    let mut len = n;
    while 16 < len {
        let half = len / 2;
        let rest = len - half;
        let quarter = rest / 2;
        let middle = entry_at(table, size, lo + half);
        let near = entry_at(table, size, lo + quarter);
        let far = entry_at(table, size, lo + half + quarter);
        let mut high = lo + half;
        let mut high_kept = middle;
        if far <= wanted {
            high += quarter;
            high_kept = far;
        }
        if near <= wanted {
            lo += quarter;
            kept = near;
        }
        if middle <= wanted {
            lo = high;
            kept = high_kept;
        }
        len = rest - quarter;
    }
    (lo, kept, len)
}

// Where the run of equal entries that ends with entry `last` starts; `entry` is that entry. Every entry of the run is
// read: halving could pass over one that differs.
#[inline(never)]
fn run_start(table: &[u8], size: u8, last: usize, entry: u64) -> usize
    requires width { is_width size ≡ true }
    requires inside { last * size + size ≤ length table.now }
    requires is_last { entry ≡ entry_number size (drop (last * size) table.now) }
    ensures { result ≡ run_start (entries size (last + 1) table.now) last }
{
    let mut start = last;
    while 0 < start && entry_at(table, size, start - 1) == entry {
        start -= 1;
    }
    start
}
