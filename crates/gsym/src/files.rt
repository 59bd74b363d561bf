//! An opened file: the bytes that the caller lends, with every call on them as a method.
ghost use Rattle.std.specs.Prelude.{◌≡◌};

use super::chain::{CallChain, calls};
use super::lookups::lookup;
use gsym_types::{Address, Answer, Frame, Options, Refusal, Text};

/// An opened file (RULES, "Calls"). Opening judges nothing: each lookup judges the bytes anew.
// No PartialEq: it lends a whole file, and no one compares two by their bytes.
#[derive(Clone, Copy, Debug)]
pub struct Gsym<'a> {
    /// The bytes of the file, which stay the caller's.
    pub file: &'a [u8],
}

/// Opens a file (RULES, "Calls").
pub fn open(file: &[u8]) -> Gsym<'_>
    ensures { result.file ≡ file.entry }
{
    Gsym { file }
}

// Each method is the function of its name, for those who opened a file.
impl<'a> Gsym<'a> {
    ghost use Rattle.std.specs.Prelude.{◌≡◌, ◌+◌, ◌<◌, ◌≤◌, ◌↔◌, [], length, take, All, IfOk, IfSome, IsSome, OnErr};
    ghost use Rattle.std.specs.Prelude.{IsUtf8};
    ghost use Rattle.gsym_strtab.specs.Strings.{part_of, StartsAt};
    ghost use Rattle.gsym.specs.Lookups.{MeetsLookup};
    ghost use Rattle.gsym.specs.CallOrder.{calls_in_order, calls_left};
    ghost use Rattle.gsym.specs.Names.{IsNameIn};

    /// `lookup` on the file: the symbol of an address with all that is asked for, and records at the front of `frames`
    /// (RULES, "Calls").
    pub fn lookup(
        &self,
        addr: Address,
        options: Options,
        frames: &mut [Frame],
    ) -> Result<Answer, Refusal>
        // Every clause of `lookup`, and five of them for callers that prove nothing else.
        ensures promises { MeetsLookup self.now.file.now addr options result frames.old frames.new }
        ensures below { IfOk result (λ a. a.addr.0 ≤ addr.0) }
        ensures name { IfOk result (λ a. IsNameIn self.now.file.now a.name) }
        ensures names { IfOk result (λ a.
            All (λ f. IsNameIn self.now.file.now f.name) (take a.count frames.new)) }
        ensures within { IfOk result (λ a. a.count ≤ length frames.new) }
        ensures kept { OnErr result (frames.new ≡ frames.old) }
    {
        lookup(self.file, addr, options, frames)
    }

    /// `text` on the file: that part of its bytes, no copy, or an empty part where place and length don't fit
    /// (RULES, "Strings").
    pub fn text(&self, t: Text) -> &'a [u8]
        ensures exact { result.now ≡ part_of self.now.file.now t.place t.len }
        ensures itself { t.place + t.len ≤ length self.now.file.now → StartsAt self.now.file t.place result }
        ensures empty { length self.now.file.now < t.place + t.len → result.now ≡ [] }
    {
        gsym_strtab::text(self.file, t)
    }

    /// `name` on the file: that part of its bytes as a string, or `None` where place and length don't fit or it is not
    /// UTF-8 (RULES, "Strings").
    pub fn name(&self, t: Text) -> Option<&'a str>
        ensures bytes { IfSome result (λ name. name.now ≡ part_of self.now.file.now t.place t.len) }
        ensures some { IsSome result
            ↔ (t.place + t.len ≤ length self.now.file.now) × IsUtf8 (part_of self.now.file.now t.place t.len) }
    {
        gsym_strtab::name(self.file, t)
    }

    /// `calls`: the calls of an answer, from the innermost one to the symbol (RULES, "Putting the answer
    /// together"). It reads nothing of the file, and is a method for those who opened one.
    pub fn calls<'b>(&self, answer: &Answer, frames: &'b [Frame]) -> CallChain<'b>
        ensures { calls_left result ≡ calls_in_order answer.now (take answer.now.count frames.now) }
    {
        calls(answer, frames)
    }
}
