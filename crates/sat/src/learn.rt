// The learned clause: its sorted literals go into the pool, and become a clause.
ghost use Rattle.std.specs.Prelude.{◌≡◌, true, [], ◌+◌, ◌*◌, ◌<◌, ◌≤◌, length};
ghost use Rattle.words.specs.Layout.{SMALL, STARTS, POOL, LEARNED};
ghost use Rattle.words.specs.Region.{region};
ghost use Rattle.laws.specs.Search.State.{Apart};
ghost use Rattle.clauses.specs.State.{SoundStore, AllBelow, AddedList, clean};
ghost use Rattle.analysis.specs.SortLaws.{part};
ghost use Rattle.sat.specs.LearnLaws.{Pushes, Learnable, Learns};

use crate::state::Learned;
use analysis::learned::highest_level;
use analysis::sort::sort_learned;
use assignment::state::Trail;
use assignment::trail::backtrack;
use clauses::add::add_clause;
use clauses::encode::push_literal;
use clauses::state::Store;
use literals::Literal;
use words::{LEARNED, load};

// `count` learned literals, from `start` on, put into the pool after those of the clauses.
fn push_learned(words: &mut [u32], store: Store, t: Trail, start: usize, count: usize)
    requires { SoundStore store t words.old [] × (store.literals + count ≤ POOL) × (start + count ≤ SMALL) }
    ensures { Pushes store t start count words.old words.new }
{
    for i in 0..count {
        let literal = Literal(load(words, LEARNED, start + i));
        push_literal(words, store, t, i, literal);
    }
}

// The clause of `count` learned literals, from `start` on, sorted and of distinct variables.
pub fn add_learned(
    words: &mut [u32],
    scores: &mut [f64],
    store: Store,
    t: Trail,
    start: usize,
    count: usize,
) -> Store
    requires { SoundStore store t words.old [] × (store.literals + count ≤ POOL) × (start + count ≤ SMALL) × (store.clauses + 1 < STARTS) × (0 < count) × (t.variables ≤ length scores.old)
        × AllBelow (t.variables * 2) (part count start (region LEARNED words.old)) × Apart (part count start (region LEARNED words.old)) × (clean (part count start (region LEARNED words.old)) ≡ true) }
    ensures { AddedList store t words.old scores.old (part count start (region LEARNED words.old)) result words.new scores.new }
{
    push_learned(words, store, t, start, count);
    add_clause(words, scores, store, t, count)
}

// The learned clause added, at the level that it asks for: `count` literals are learned beside the asserting one.
pub fn learn(
    words: &mut [u32],
    scores: &mut [f64],
    store: Store,
    t: Trail,
    asserting: Literal,
    count: usize,
) -> Learned
    requires { Learnable store t words.old scores.old asserting.0 count }
    ensures { Learns store t words.old scores.old asserting.0 count result words.new scores.new }
{
    let level = highest_level(words, t, count);
    let start = sort_learned(words, count, asserting);
    let back = backtrack(words, t, level);
    let size = count + 1 - start;
    let next = add_learned(words, scores, store, back, start, size);
    Learned {
        store: next,
        trail: back,
    }
}
