// The choice of a variable, block by block: as sat.rs looks at all of them, with what is known of a block kept from one choice to the next.
ghost use Rattle.std.specs.Prelude.{◌≡◌, true, ◌*◌, ◌<◌, ◌≤◌, length, take};
ghost use Rattle.words.specs.Layout.{BLOCK};
ghost use Rattle.assignment.specs.State.{TrailReady};
ghost use Rattle.assignment.specs.Blocks.{Unsigned, KnownIn, LeadsIn, higher_of, Betters, first_of, end_of, Current, BlockChosen, Chooses};

use crate::state::Trail;
use crate::trail::load_below;
use words::{BLOCK, BLOCKS, VALUES, load, put};

// The choice of two: the second, of the higher number, by a strictly higher score only. 0 stands for none: variable 0 is never chosen, and the definition says none so.
fn higher(scores: &[f64], a: usize, b: usize) -> usize
    requires { (a < length scores.now) × (b < length scores.now) }
    ensures { result ≡ higher_of scores.now a b }
{
    if a == 0 || (b != 0 && scores[a] < scores[b]) {
        b
    } else {
        a
    }
}

// The best of a range and the variable after it, if that is unassigned.
fn better(words: &[u32], scores: &[f64], t: Trail, best: usize, variable: usize) -> usize
    requires { TrailReady t words.now × (t.variables ≤ length scores.now) × (0 < variable) × (variable < t.variables) × (best ≤ variable) × Unsigned (take t.variables scores.now) }
    ensures { Betters t words.now scores.now best variable result }
{
    if load_below(words, VALUES, t.variables, variable) == 0 {
        higher(scores, best, variable)
    } else {
        best
    }
}

// The first variable of a block; variable 0 is never chosen.
fn first_of(block: usize) -> usize
    requires { block * BLOCK < 65536 }
    ensures { result ≡ first_of block }
{
    (block * BLOCK).max(1)
}

// The choice of a block, whose variables are looked at in turn.
fn scan_block(words: &[u32], scores: &[f64], t: Trail, block: usize) -> usize
    requires { TrailReady t words.now × (t.variables ≤ length scores.now) × (block * BLOCK < t.variables) × Unsigned (take t.variables scores.now) }
    ensures { LeadsIn t words.now scores.now (first_of block) (end_of t.variables block) result }
{
    let end = t.variables.min(block * BLOCK + BLOCK);
    let mut best = 0;
    for variable in first_of(block)..end {
        best = better(words, scores, t, best, variable);
    }
    best
}

// Whether what a block's word says is so: it says something, and the variable that it names, if it names one, is unassigned.
fn is_current(words: &[u32], t: Trail, known: u32) -> bool
    requires { TrailReady t words.now × (1 < known → known ≤ t.variables) }
    ensures { result ≡ true → Current t words.now known }
{
    match known {
        0 => false,
        1 => true,
        _ => load_below(words, VALUES, t.variables, known as usize - 1) == 0,
    }
}

// The choice of a block: by its word where that is so, else found anew and kept in its word.
fn block_choice(words: &mut [u32], scores: &[f64], t: Trail, block: usize) -> usize
    requires { TrailReady t words.old × (t.variables ≤ length scores.now) × (block * BLOCK < t.variables) × Unsigned (take t.variables scores.now) × KnownIn t words.old scores.now }
    ensures { BlockChosen t words.old scores.now block result words.new }
{
    let known = load(words, BLOCKS, block);
    if is_current(words, t, known) {
        return known as usize - 1;
    }
    let best = scan_block(words, scores, t, block);
    put(words, BLOCKS, block, (best + 1) as u32);
    best
}

// The unassigned variable of the highest score, the lowest of equals: the best of the blocks in turn.
pub fn choose_variable(words: &mut [u32], scores: &[f64], t: Trail) -> Option<u32>
    requires { TrailReady t words.old × (t.variables ≤ length scores.now) × (0 < t.variables) × Unsigned (take t.variables scores.now) × KnownIn t words.old scores.now }
    ensures { Chooses t words.old scores.now result words.new }
{
    let mut best = 0;
    for block in 0..t.variables.div_ceil(BLOCK) {
        let choice = block_choice(words, scores, t, block);
        best = higher(scores, best, choice);
    }
    if best == 0 { None } else { Some(best as u32) }
}
