//! The items of an address data list, one after another (RULES, "Address data list").
ghost use Rattle.std.specs.Prelude.{◌≡◌};
ghost use Rattle.gsym_parser.specs.Items.{items_of, items_left};

/// An item (RULES, "Address data list").
#[derive(Clone, Copy, Debug, PartialEq, Eq, Default, Hash)]
pub struct Item<'a> {
    /// Its type, which is not 0: 1 is a line table, 2 an inline block, any other is passed over.
    // The format's own number and no enum: of what it means nothing is known here.
    pub kind: u32,
    /// Its bytes.
    pub bytes: &'a [u8],
}

/// The items that are still to come, in file order (RULES, "Address data list"). The list ends at type 0, whatever
/// follows it, and at an item that doesn't fit; neither is a refusal.
#[derive(Clone, Copy, Debug, PartialEq, Eq, Default, Hash)]
pub struct Items<'a> {
    /// The bytes that the next item stands at the front of.
    pub rest: &'a [u8],
}

/// The items that bytes begin with (RULES, "Address data list").
pub fn parse_address_data(bytes: &[u8]) -> Items<'_>
    ensures items { items_left result ≡ items_of bytes.now }
    ensures rest { result.rest.now ≡ bytes.now }
{
    Items { rest: bytes }
}

impl<'a> Items<'a> {
    ghost use Rattle.std.specs.Prelude.{◌≡◌, [], true, option_map};
    ghost use Rattle.gsym_parser.specs.Items.{item_view, item_front, ends_at, closed_of, items_left};

    /// Whether the list has ended, and at type 0: false where items are still to come, and where it ended at an item
    /// that doesn't fit (RULES, "Address data list").
    #[tactic(auto, using(crate::proofs::Lists::closed_ended, crate::proofs::Lists::ended_closed), unfolding(crate::specs::Items::ends_at, gsym_reads::specs::Fronts::u32_front))]
    pub fn is_closed(&self) -> bool
        ensures ended { result ≡ true → items_left self.now ≡ [] }
        ensures closed { items_left self.now ≡ [] → result ≡ closed_of self.now.rest.now }
        ensures exact { result ≡ ends_at self.now.rest.now }
    {
        let Some((kind, _)) = gsym_reads::u32_front(self.rest) else {
            return false;
        };
        kind == 0
    }

    // The next item, and the bytes after it.
    #[inline]
    #[tactic(auto, unfolding(crate::specs::Items::item_front, crate::specs::Items::sized_item, gsym_reads::specs::Fronts::u32_front))]
    fn split(&self) -> Option<(Item<'a>, &'a [u8])>
        ensures { option_map (λ p. (item_view p.0, p.1.now)) result ≡ item_front self.now.rest.now }
    {
        let (kind, rest) = gsym_reads::u32_front(self.rest)?;
        if kind == 0 {
            return None;
        }
        let (len, rest) = gsym_reads::u32_front(rest)?;
        let len = len as usize;
        if rest.len() < len {
            return None;
        }
        let (bytes, rest) = rest.split_at(len);
        Some((Item { kind, bytes }, rest))
    }
}

impl<'a> Iterator for Items<'a> {
    ghost use Rattle.std.specs.Prelude.{◌≡◌, Some, IfSome};
    ghost use Rattle.std.specs.Iterator.{YieldsFirstBy, item_count};
    ghost use Rattle.gsym_parser.specs.Items.{items_left, item_view, item_front, closed_of};

    type Item = Item<'a>;

    ghost next_gives = { λ old item new.
        YieldsFirstBy item_view items_left old item new
        × (closed_of new.rest.now ≡ closed_of old.rest.now)
        × IfSome item (λ i. item_front old.rest.now ≡ Some (item_view i, new.rest.now)) };

    ghost remaining = { item_count items_left };

    /// The next item; what is left then stands behind it, so that the numbers of bytes left say where it stands (RULES,
    /// "Address data list"). Where there is none the list has ended, and stays as it is: `is_closed` says how it ended.
    #[tactic(auto, using(crate::proofs::Lists::items_step, crate::proofs::Lists::closed_step))]
    fn next(&mut self) -> Option<Item<'a>> {
        let (item, rest) = self.split()?;
        self.rest = rest;
        Some(item)
    }
}
