// Clauses added: the literals that lie in the pool become a clause, which watches its first two.
ghost use Rattle.std.specs.Prelude.{◌≡◌, ◌+◌, ◌*◌, ◌<◌, ◌≤◌, true, length};
ghost use Rattle.words.specs.Layout.{LENT, STARTS, POOL};
ghost use Rattle.clauses.specs.State.{sealed_words, pool_literals, clean, Attachable, Attached, Added};

use crate::queue::push_back;
use crate::state::Store;
use assignment::scores::add_ones;
use assignment::state::Trail;
use literals::Literal;
use words::{CLAUSE_STARTS, LITERALS, WATCHED, load, put};

// The end of the clause id, and its watched literals.
#[tactic(auto, unfolding(crate::specs::State::sealed_words))]
fn seal(words: &mut [u32], id: usize, end: usize, first: Literal, second: Literal)
    requires { (LENT ≤ length words.old) × (id + 1 < STARTS) × (end ≤ POOL) }
    ensures { (words.new ≡ sealed_words words.old id end first.0 second.0) × (LENT ≤ length words.new) }
{
    put(words, CLAUSE_STARTS, id + 1, end as u32);
    put(words, WATCHED, id * 2, first.0);
    put(words, WATCHED, id * 2 + 1, second.0);
}

// The literals that lie in the pool become a clause; one literal stands for both that are watched, and is watched once.
fn attach(words: &mut [u32], store: Store, t: Trail, count: usize) -> Store
    requires { Attachable store t words.old count }
    ensures { Attached store t words.old count result words.new }
{
    let id = store.clauses;
    let start = store.literals;
    let attached = Store {
        clauses: id + 1,
        literals: start + count,
    };
    let first = Literal(load(words, LITERALS, start));
    if count == 1 {
        seal(words, id, start + count, first, first);
        push_back(words, first.0 as usize, (id * 2) as u32);
        return attached;
    }
    let second = Literal(load(words, LITERALS, start + 1));
    seal(words, id, start + count, first, second);
    push_back(words, first.0 as usize, (id * 2) as u32);
    push_back(words, second.0 as usize, (id * 2 + 1) as u32);
    attached
}

// The literals that lie in the pool, sorted and of distinct variables, become a clause, and 1.0 is added to the score of each.
pub fn add_clause(
    words: &mut [u32],
    scores: &mut [f64],
    store: Store,
    t: Trail,
    count: usize,
) -> Store
    requires { Attachable store t words.old count × (t.variables ≤ length scores.old) × (clean (pool_literals store count words.old) ≡ true) }
    ensures { Added store t words.old scores.old count result words.new scores.new }
{
    let start = store.literals;
    let end = start + count;
    add_ones(words, scores, t, start, end);
    attach(words, store, t, count)
}
