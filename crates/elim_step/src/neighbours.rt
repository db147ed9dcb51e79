//! The remaining neighbours of a place, block by block. So an elimination walks over all places once for each block, and
//! not for each neighbour, and takes no memory.
ghost use Rattle.std.specs.Prelude.{◌≡◌, ℕ, ◌<◌, ◌≤◌, false, true, IfSome, IfNone, length};
ghost use Rattle.dist_rows.specs.Cells.{are_neighbours};
ghost use Rattle.elim_step.specs.Eliminates.{is_neighbour};
ghost use Rattle.elim_step.specs.Blocks.{IsBlock, items_of};

use crate::block::{Block, ROOM};
use dist_rows::Rows;

/// The least neighbour of k that is not below a place.
pub fn next_from<R: Rows>(rows: &R, k: u32, from: u32) -> Option<u32>
    requires { k < R.places rows.now }
    ensures some { IfSome result (λ n. (from ≤ n) × (n < R.places rows.now) × (are_neighbours (R.at rows.now) k n ≡ true)) }
    ensures least { IfSome result (λ n. (m : ℕ) → from ≤ m → m < n → are_neighbours (R.at rows.now) k m ≡ false) }
    ensures none { IfNone result ((m : ℕ) → from ≤ m → are_neighbours (R.at rows.now) k m ≡ false) }
{
    if from == 0 {
        return rows.next_neighbour(k, None);
    }
    rows.next_neighbour(k, Some(from - 1))
}

/// The remaining neighbours of k from a place on: of all places, or as many as a block has room for.
pub fn block_from<R: Rows>(rows: &R, k: u32, remain: &[bool], from: u32) -> Block
    requires within { k < R.places rows.now }
    requires len { length remain.now ≡ R.places rows.now }
    requires from { from ≤ R.places rows.now }
    ensures from { result.from ≡ from }
    ensures block { IsBlock (is_neighbour remain.now (R.at rows.now) k) from result.end (items_of result) }
    ensures within { result.end ≤ R.places rows.now }
    ensures onward { from < R.places rows.now → from < result.end }
{
    let size = rows.size();
    let mut block = Block::empty(from);
    'filling: while block.count < ROOM {
        let Some(n) = next_from(rows, k, block.end) else {
            block.end = size;
            return block;
        };
        block = block.with(n, remain[n as usize]);
    }
    block
}
