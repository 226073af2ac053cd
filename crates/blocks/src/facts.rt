//! What the library's traits mean at a block.
ghost use Rattle.std.specs.Prelude.{◌≡◌};
ghost use Rattle.blocks.specs.declared.block.Block.{Block};

use crate::block::Block;

/// The clone of a block is the same view of the same bytes, and is never refused.
pub fn clone_is_identity()
    ensures { let clones = ⟦<Block<'static> as Clone>⟧ in
        (a b : Block) → clones.is_infallible a × (clones.is_clone a b → b ≡ a) }
{}
