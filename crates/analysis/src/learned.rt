// What is done with the learned literals: the level to go back to.
ghost use Rattle.std.specs.Prelude.{◌≡◌, ◌≤◌, get_or};
ghost use Rattle.words.specs.Layout.{SMALL, LEVELS, LEARNED};
ghost use Rattle.model.specs.Literal.{node};
ghost use Rattle.model.specs.Sat as Sat;
ghost use Rattle.assignment.specs.State.{assignment_of, column, TrailReady};

use assignment::state::Trail;
use assignment::trail::fetch_below;
use literals::Literal;
use words::{LEARNED, LEVELS, SMALL, load};

// The level of a literal's variable.
fn level_of(words: &[u32], t: Trail, literal: Literal) -> usize
    requires { TrailReady t words.now }
    ensures { result ≡ get_or (column t.variables LEVELS words.now) (node literal.0) 0 }
{
    fetch_below(words, LEVELS, SMALL, t.variables, literal.node() as usize) as usize
}

// The highest level among the learned literals; 0 where there is none, as the definition has it, since the search goes back to level 0 then.
pub fn highest_level(words: &[u32], t: Trail, count: usize) -> usize
    requires { TrailReady t words.now × (count ≤ SMALL) }
    ensures { result ≡ Sat.highest_level (assignment_of t words.now) (column count LEARNED words.now) }
{
    let mut highest: usize = 0;
    for i in 0..count {
        let literal = Literal(load(words, LEARNED, i));
        highest = highest.max(level_of(words, t, literal));
    }
    highest
}
