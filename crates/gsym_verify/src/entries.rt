//! The entries of a file in their order, each with all that its list says (RULES, "Checking a file").
ghost use Rattle.std.specs.Prelude.{◌≡◌, ◌+◌, Ok, Err, None, option_map, nat_le, if◌then◌else◌};
ghost use Rattle.gsym_inline.specs.Limits.{most_address};
ghost use Rattle.gsym_parser.specs.Entries.{info_view};
ghost use Rattle.gsym_parser.specs.Items.{item_view, items_of, closed_of};
ghost use Rattle.gsym_parser.specs.View.{view};
ghost use Rattle.gsym_resolver.specs.EntryData.{entry_data};
ghost use Rattle.gsym_verify.specs.declared.finding.Fault.TheVariants.{SumTooLarge};
ghost use Rattle.gsym_verify.specs.Content.{entry_content, content_of};
ghost use Rattle.gsym_verify.specs.Check.{is_not_below, line_checked, item_checked, list_checked, data_checked};
ghost use Rattle.gsym_verify.specs.Check.{entry_checked, content_checked};

use super::finding::{Fault, Finding};
use super::watch::Watch;
use gsym_inline::check_tree;
use gsym_linetab::{Ending, header_refusal, table_end};
use gsym_parser::{AddrInfo, GsymContext, Item, parse_address_data};
use gsym_types::{Address, Refusal};

// The types of the items that are judged: the format's own numbers, and no enum, since any other is passed over.
const LINE_TABLE: u32 = 1;

const INLINE_INFO: u32 = 2;

// A line table: its header reads, and its program is not stopped.
fn check_line_table(bytes: &[u8], symbol: Address) -> Result<(), Fault>
    ensures { result ≡ line_checked symbol bytes.now }
{
    match table_end(bytes, symbol) {
        Ok(Ending::Stopped) => Err(Fault::StoppedProgram),
        Ok(Ending::EndSequence(_)) => Ok(()),
        Ok(Ending::UsedUp) => Ok(()),
        Err(cause) => Err(Fault::Refused(header_refusal(cause))),
    }
}

// An item.
#[tactic(auto, unfolding(crate::specs::Check::item_checked))]
fn check_item(item: Item<'_>, symbol: Address) -> Result<(), Fault>
    ensures { result ≡ item_checked symbol (item_view item.entry) }
{
    match item.kind {
        LINE_TABLE => check_line_table(item.bytes, symbol),
        INLINE_INFO => {
            check_tree(item.bytes, symbol)?;
            Ok(())
        }
        _ => Ok(()),
    }
}

// A list of items, up to its end, which has to be at type 0.
#[tactic(auto, unfolding(crate::specs::Check::list_checked))]
fn check_list(bytes: &[u8], symbol: Address) -> Result<(), Fault>
    ensures { result ≡ list_checked symbol (items_of bytes.now) (closed_of bytes.now) }
{
    let mut items = parse_address_data(bytes);
    'items: while let Some(item) = items.next() {
        check_item(item, symbol)?;
    }
    if items.is_closed() {
        Ok(())
    } else {
        Err(Fault::OpenList)
    }
}

// Whether an entry is the first, or not below the one before it.
fn is_not_below(before: Option<u64>, entry: u64) -> bool
    ensures { result ≡ is_not_below before entry }
{
    match before {
        Some(before) => before <= entry,
        None => true,
    }
}

// The symbol's address, where neither it nor its end is above 2^64-1.
fn symbol_of(base: Address, entry: u64, size: u32) -> Result<Address, Fault>
    ensures { result ≡ (if nat_le (base.0 + entry + size) most_address
        then Ok (record { 0 = base.0 + entry }) else Err SumTooLarge) }
{
    let start = base.0.checked_add(entry).ok_or(Fault::SumTooLarge)?;
    let _end = start
        .checked_add(u64::from(size))
        .ok_or(Fault::SumTooLarge)?;
    Ok(Address(start))
}

// What an entry says of its symbol: its sum, its name, its list.
#[tactic(auto, using(crate::proofs::Names::named, crate::proofs::Names::unnamed), unfolding(crate::specs::Check::data_checked))]
fn check_info(context: &GsymContext<'_>, entry: u64, info: AddrInfo<'_>) -> Result<(), Fault>
    ensures { result ≡ data_checked (content_of (view context.now)).strings (context.now.tables.base.0 + entry)
        (entry_data (info_view info.entry)) }
{
    let symbol = symbol_of(context.tables.base, entry, info.size)?;
    match context.name_at(info.name) {
        Some(_) => check_list(info.data, symbol),
        None => Err(Fault::Refused(Refusal::UnreadName)),
    }
}

// An entry of the table, with the one before it.
#[tactic(auto, unfolding(crate::specs::Check::entry_checked, gsym_resolver::specs::EntryData::data_at))]
fn check_entry(
    context: &GsymContext<'_>,
    index: usize,
    entry: u64,
    before: Option<u64>,
) -> Result<(), Fault>
    ensures { result ≡ entry_checked (content_of (view context.now)).strings
        (option_map (λ b. context.now.tables.base.0 + b) before) (entry_content (view context.now) index entry) }
{
    if !is_not_below(before, entry) {
        return Err(Fault::FallingTable);
    }
    let info = context.addr_info(index).ok_or(Refusal::UnreadInfo)?;
    check_info(context, entry, info)
}

// All entries, in their order; whoever watches is told of each before it is judged.
#[tactic(auto, using(crate::proofs::InOrder::entries))]
pub(crate) fn check_entries<W: Watch>(
    context: &GsymContext<'_>,
    watch: &mut W,
) -> Result<(), Finding>
    ensures { result ≡ content_checked (content_of (view context.now)) }
{
    let mut before = None;
    for index in 0..context.tables.count {
        // A table of another offset size has no entries.
        let Some(entry) = context.entry(index as usize) else {
            return Ok(());
        };
        watch.entry(index);
        if let Err(fault) = check_entry(context, index as usize, entry, before) {
            return Err(Finding::Entry { index, fault });
        }
        before = Some(entry);
    }
    Ok(())
}
