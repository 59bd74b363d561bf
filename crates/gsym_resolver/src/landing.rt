//! Where an address lands: the entry (1), its information (5), its size (1) and its name (6), in the order of RULES
//! ("Finding the entry").
ghost use Rattle.std.specs.Prelude.{◌≡◌};
ghost use Rattle.gsym_parser.specs.View.{view};
ghost use Rattle.gsym_resolver.specs.Lookup.{landed, landing_at};

use gsym_parser::{GsymContext, covers};
use gsym_types::{Address, Refusal, Text};

// What the entry of an address says of its symbol: address, name, the bytes of its address data list, and size. The
// size stands last: in front of the name it would leave a gap, and the name would be copied with the gap, in two parts
// that are read as one. Nothing compares two.
#[derive(Clone, Copy, Debug)]
pub(crate) struct Entry<'a> {
    pub symbol: Address,
    pub name: Text,
    pub bytes: &'a [u8],
    pub size: u32,
}

// The entry that an address lands on; or the refusal 1, 5 or 6. Compiled into its callers, so that the context's
// numbers need no memory where they stay the only ones that read it.
#[inline(always)]
#[tactic(auto, unfolding(crate::specs::Lookup::landing_at))]
pub(crate) fn land<'a>(context: &GsymContext<'a>, addr: Address) -> Result<Entry<'a>, Refusal>
    ensures { landed result ≡ landing_at (view context.now) addr }
{
    let found = context.find_addr(addr).ok_or(Refusal::UnknownAddress)?;
    let info = context.addr_info(found.index).ok_or(Refusal::UnreadInfo)?;
    if !covers(addr, found.symbol, info.size) {
        return Err(Refusal::UnknownAddress);
    }
    let name = context.name_at(info.name).ok_or(Refusal::UnreadName)?;
    Ok(Entry {
        symbol: found.symbol,
        size: info.size,
        name,
        bytes: info.data,
    })
}
