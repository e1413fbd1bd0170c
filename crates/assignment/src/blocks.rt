// The blocks of variables: a block's word says which of its unassigned variables has the highest score, until that may no longer be so.
ghost use Rattle.assignment.specs.State.{TrailReady};
ghost use Rattle.assignment.specs.Blocks.{Forgets, ForgetsAll};

use crate::state::Trail;
use crate::trail::fetch_below;
use words::{BLOCK, BLOCKS, SMALL, VALUES, clear, stash};

// A variable whose score changes: its block is unknown where it is unassigned, since only unassigned ones are compared.
pub fn forget(words: &mut [u32], t: Trail, variable: usize)
    requires { TrailReady t words.old }
    ensures { Forgets t words.old variable words.new }
{
    if fetch_below(words, VALUES, SMALL, t.variables, variable) == 0 {
        stash(words, BLOCKS, SMALL, variable / BLOCK, 0);
    }
}

// All blocks are unknown.
pub fn forget_all(words: &mut [u32], t: Trail)
    requires { TrailReady t words.old }
    ensures { ForgetsAll t words.old words.new }
{
    clear(words, BLOCKS, SMALL, t.variables / BLOCK + 1);
}
