// Reading clauses: the clause with a number, and the literal that can be watched instead of a false one.
ghost use Rattle.std.specs.Prelude.{◌≡◌, ◌+◌, ◌*◌, ◌<◌, ◌≤◌, length, get_or};
ghost use Rattle.words.specs.Layout.{LENT, STARTS, CLAUSE-STARTS, WATCHED};
ghost use Rattle.words.specs.Region.{region};
ghost use Rattle.assignment.specs.State.{assignment_of, TrailReady};
ghost use Rattle.clauses.specs.Clauses.{literals_of};
ghost use Rattle.clauses.specs.State.{span_of, is_spare, can_watch, Watchable, Spares};

use crate::state::Clause;
use assignment::state::Trail;
use assignment::trail::not_false;
use literals::Literal;
use words::{CLAUSE_STARTS, LITERALS, WATCHED, load};

// The clause with a number.
#[tactic(auto, using(crate::specs::ClauseLaws::read_span))]
pub fn clause(words: &[u32], id: usize) -> Clause
    requires { (LENT ≤ length words.now) × (id + 1 < STARTS) }
    ensures { (span_of result words.now ≡ literals_of words.now id) × (result.end ≡ get_or (region CLAUSE-STARTS words.now) (id + 1) 0)
        × (result.first.0 ≡ get_or (region WATCHED words.now) (id * 2) 0) × (result.second.0 ≡ get_or (region WATCHED words.now) (id * 2 + 1) 0) }
{
    let start = load(words, CLAUSE_STARTS, id);
    let end = load(words, CLAUSE_STARTS, id + 1);
    let first = Literal(load(words, WATCHED, id * 2));
    let second = Literal(load(words, WATCHED, id * 2 + 1));
    Clause {
        start,
        end,
        first,
        second,
    }
}

// Whether a literal is none of the watched ones of a clause.
#[tactic(auto, unfolding(crate::specs::State::is_spare))]
fn is_spare(c: Clause, l: Literal) -> bool
    ensures { result ≡ is_spare c l.0 }
{
    if l == c.first {
        return false;
    }
    l != c.second
}

// Whether a literal of a clause is neither watched nor false. Most are false, so that is asked first.
#[tactic(auto, unfolding(crate::specs::State::is_spare, crate::specs::State::can_watch))]
fn can_watch(words: &[u32], t: Trail, c: Clause, l: Literal) -> bool
    requires { TrailReady t words.now × (l.0 < t.variables * 2) }
    ensures { result ≡ can_watch (assignment_of t words.now) c l.0 }
{
    if not_false(words, t, l) {
        return is_spare(c, l);
    }
    false
}

// The first literal of a clause that is neither watched nor false.
pub fn replacement(words: &[u32], t: Trail, c: Clause) -> Option<Literal>
    requires { Watchable t words.now c }
    ensures { Spares t words.now c result }
{
    for at in c.start as usize..c.end as usize {
        let l = Literal(load(words, LITERALS, at));
        if can_watch(words, t, c, l) {
            return Some(l);
        }
    }
    None
}
