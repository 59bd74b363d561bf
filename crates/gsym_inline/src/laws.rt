//! Laws of the definitions that contracts name (RULES, "Inline tree"). Nothing runs here: each function's clauses are
//! about the definitions alone.
ghost use Rattle.std.specs.Prelude.{◌≡◌, ◌↔◌, ◌⊎◌, ◌++◌, ℕ, List, IsOk, Err};
ghost use Rattle.gsym_types.specs.declared.InlineFrame.{InlineFrame};
ghost use Rattle.gsym_types.specs.declared.Refusal.{Refusal};
ghost use Rattle.gsym_types.specs.declared.Refusal.TheVariants.{UnreadInline};
ghost use Rattle.gsym_inline.specs.Block.{block_of};
ghost use Rattle.gsym_inline.specs.Checked.{checked_tree};
ghost use Rattle.gsym_inline.specs.Reads.{Reads};
ghost use Rattle.gsym_inline.specs.ListsFrames.{ListsFrames};
ghost use Rattle.gsym_inline.specs.Steps.{Step, Judging, block_steps, steps_of, InFile, InPlace};
ghost use Rattle.gsym_inline.specs.FirstFault.{NoFault, FirstFault};
ghost use Rattle.gsym_inline.specs.FaultExamples.{FaultNumbers};
ghost use Rattle.gsym_inline.specs.Examples.{TreeExamples};

/// The steps of a block are those of its reading (RULES, "Inline tree", "Order inside a node"): its items stand in the
/// bytes one after another from the start on, what is judged comes directly after its item, and the block reads exactly
/// if no step is refused.
pub fn steps_in_order()
    ensures in_file { (judging : Judging) (symbol : ℕ) (bytes : List ℕ)
        → InFile bytes 0 (block_steps judging symbol bytes) }
    ensures in_place { (judging : Judging) (symbol : ℕ) (bytes : List ℕ) (last : Step)
        → InPlace last (block_steps judging symbol bytes) }
    ensures reads { (symbol addr room : ℕ) (bytes : List ℕ)
        → Reads symbol addr room bytes ↔ NoFault room (steps_of symbol addr bytes) }
{}

/// A block reads exactly if its tree is there in full, no judged node has a start or an end above 2^64-1 or a call file
/// above 4,294,967,295, no node stands on level 65, and there are no more frames than room (RULES, "Inline tree").
pub fn reads_iff()
    ensures { (symbol addr room : ℕ) (bytes : List ℕ)
        → IsOk (block_of symbol addr room bytes) ↔ Reads symbol addr room bytes }
{}

/// Neither a second list of frames nor a second refusal fits a block (RULES, "Inline tree").
pub fn one_answer()
    ensures frames { (symbol addr room : ℕ) (bytes : List ℕ) (fs gs : List InlineFrame)
        → ListsFrames symbol addr room bytes fs → ListsFrames symbol addr room bytes gs → fs ≡ gs }
    ensures refusal { (symbol addr room : ℕ) (bytes : List ℕ) (r q : Refusal)
        → FirstFault room (steps_of symbol addr bytes) r
        → FirstFault room (steps_of symbol addr bytes) q → r ≡ q }
{}

/// A block that is cut is refused as short (10), or answers as the whole does, and so does its check. So no cut makes a
/// number too wide (15), nor anything else that the whole isn't refused with (RULES, "Inline tree").
pub fn cut_blocks()
    ensures frames { (symbol addr room : ℕ) (front rest : List ℕ)
        → (block_of symbol addr room front ≡ Err UnreadInline)
        ⊎ (block_of symbol addr room front ≡ block_of symbol addr room (front ++ rest)) }
    ensures check { (symbol : ℕ) (front rest : List ℕ)
        → (checked_tree symbol front ≡ Err UnreadInline)
        ⊎ (checked_tree symbol front ≡ checked_tree symbol (front ++ rest)) }
{}

/// 41 blocks that don't read, written out, have the refusals that are written beside them, and trees whose bytes are
/// written out have the frames that are (RULES, "Further examples").
#[tactic(auto, using(crate::proofs::FaultNumbers::fault_numbers, crate::proofs::FaultNumbers::tree_examples))]
pub fn fault_numbers()
    ensures faults { FaultNumbers }
    ensures trees { TreeExamples }
{}
