//! An answer and its records as a user reads them: from the innermost call to the symbol (RULES, "Putting the answer
//! together").
ghost use Rattle.std.specs.Prelude.{◌≡◌, take};
ghost use Rattle.gsym.specs.CallOrder.{calls_in_order, calls_left};

use gsym_types::{Answer, Frame, Position, Text};

/// A function in which execution was at the address (RULES, "Putting the answer together").
#[derive(Clone, Copy, Debug, PartialEq, Eq, Default, Hash)]
pub struct Call {
    /// Its name, which is UTF-8.
    pub name: Text,
    /// The position that execution had reached in it. A call inlined there always has one; the symbol has none where
    /// none is known.
    pub position: Option<Position>,
}

/// The calls that are still to come: those of the records, the last record first, and then the symbol (RULES, "Putting
/// the answer together").
#[derive(Clone, Copy, Debug, PartialEq, Eq, Default, Hash)]
pub struct CallChain<'a> {
    /// The records that are still to come.
    pub records: &'a [Frame],
    /// The symbol, while it is still to come.
    pub symbol: Option<Call>,
}

/// The calls of an answer whose records stand at the front of `frames`, from the innermost one to the symbol (RULES,
/// "Putting the answer together").
pub fn calls<'a>(answer: &Answer, frames: &'a [Frame]) -> CallChain<'a>
    ensures { calls_left result ≡ calls_in_order answer.now (take answer.now.count frames.now) }
{
    CallChain {
        records: &frames[..answer.count.min(frames.len())],
        symbol: Some(Call {
            name: answer.name,
            position: answer.position,
        }),
    }
}

impl<'a> Iterator for CallChain<'a> {
    ghost use Rattle.std.specs.Iterator.{YieldsFirst, item_count};
    ghost use Rattle.gsym.specs.CallOrder.{calls_left};

    type Item = Call;

    ghost next_gives = { YieldsFirst calls_left };

    ghost remaining = { item_count calls_left };

    #[tactic(auto, using(crate::proofs::CallOrder::last_first))]
    fn next(&mut self) -> Option<Call> {
        if let Some((last, before)) = self.records.split_last() {
            self.records = before;
            return Some(Call {
                name: last.name,
                position: Some(last.position),
            });
        }
        self.symbol.take()
    }
}
