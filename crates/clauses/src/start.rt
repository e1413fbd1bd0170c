// The start of a search: no clause and empty queues; then the clauses of a graph and its assumptions.
ghost use Rattle.std.specs.Prelude.{◌≤◌, length};
ghost use Rattle.words.specs.Layout.{LENT, MOST-NODES};
ghost use Rattle.clauses.specs.State.{Cleared, Encodable, Encodes};

use crate::encode::{add_assumptions, add_nodes};
use crate::state::{Encoded, Encoding, Store};
use assignment::scores::clear_scores;
use assignment::trail::new;
use words::{CLAUSE_STARTS, DOUBLE, STARTS, WATCH_COUNTS, clear, stash};

// No clause and no watch of the variables, whatever the words held before.
pub fn clear_watches(words: &mut [u32], variables: usize) -> Store
    requires { (LENT ≤ length words.old) × (variables ≤ MOST-NODES) }
    ensures { Cleared variables words.old result words.new }
{
    clear(words, WATCH_COUNTS, DOUBLE, variables * 2);
    stash(words, CLAUSE_STARTS, STARTS, 0, 0);
    Store {
        clauses: 0,
        literals: 0,
    }
}

// The clauses of the graph's first `variables` nodes and of the first `count` assumptions, with no variable assigned.
pub fn encode(
    words: &mut [u32],
    scores: &mut [f64],
    assumptions: &[u32],
    count: usize,
    variables: usize,
) -> Encoded
    requires { Encodable variables words.old scores.old assumptions.now count }
    ensures { Encodes variables words.old scores.old assumptions.now count result words.new scores.new }
{
    let trail = new(words, variables);
    clear_scores(scores, variables);
    let empty = clear_watches(words, variables);
    let store = add_nodes(words, scores, empty, trail);
    let before = Encoding {
        store,
        inconsistent: false,
    };
    let encoding = add_assumptions(words, scores, assumptions, count, before, trail);
    Encoded { encoding, trail }
}
