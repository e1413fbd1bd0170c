// Values, a literal made true, and backtrack, as sat.rs has them, over the words of a search.
ghost use Rattle.std.specs.Prelude.{◌≡◌, ◌+◌, ◌*◌, ◌<◌, ◌≤◌, length, get_or, take, drop};
ghost use Rattle.words.specs.Layout.{LENT, SMALL, DOUBLE, MOST-NODES};
ghost use Rattle.words.specs.Region.{region, size_of};
ghost use Rattle.model.specs.Sat as Sat;
ghost use Rattle.assignment.specs.State.{assignment_of, value_of, TrailReady, Assigns, Becomes, decided};
ghost use Rattle.assignment.specs.Blocks.{Undoes, News};

use crate::state::Trail;
use literals::Literal;
use words::{
    BLOCK, BLOCKS, LEVELS, LIMITS, PHASES, REASONS, SMALL, TRAIL, VALUES, clear, fetch, load, put,
    stash,
};

// A word of the first `count` of a region; 0 past them.
pub fn fetch_below(words: &[u32], base: usize, size: usize, count: usize, i: usize) -> u32
    requires { (LENT ≤ length words.now) × (base + size ≤ LENT) × (size ≡ size_of base) }
    ensures { result ≡ get_or (take count (region base words.now)) i 0 }
{
    if i < count {
        fetch(words, base, size, i)
    } else {
        0
    }
}

// A word of the first `count` of a region, whose place is among them.
pub fn load_below(words: &[u32], base: usize, count: usize, i: usize) -> u32
    requires { (LENT ≤ length words.now) × (base + size_of base ≤ LENT) × (i < count) × (count ≤ size_of base) }
    ensures { result ≡ get_or (take count (region base words.now)) i 0 }
{
    load(words, base, i)
}

// The value of a literal of the variables; none where it is unassigned.
pub fn value(words: &[u32], t: Trail, literal: Literal) -> Option<bool>
    requires { TrailReady t words.now × (literal.0 < t.variables * 2) }
    ensures { value_of result ≡ Sat.value (assignment_of t words.now) literal.0 }
{
    let word = load(words, VALUES, literal.node() as usize);
    if word == 0 {
        None
    } else {
        Some((word % 2 == 1) != literal.inverted())
    }
}

// Whether a literal of the variables is not false: yes or no, without the value of three answers.
pub fn not_false(words: &[u32], t: Trail, literal: Literal) -> bool
    requires { TrailReady t words.now × (literal.0 < t.variables * 2) }
    ensures { result ≡ Sat.not_false (Sat.value (assignment_of t words.now) literal.0) }
{
    let word = load(words, VALUES, literal.node() as usize);
    if word == 0 {
        return true;
    }
    if (word % 2 == 1) == literal.inverted() {
        return false;
    }
    true
}

// An unassigned literal made true. The reason is the word that REASONS holds: 0 for none, else one more than the number of its clause.
pub fn assign(words: &mut [u32], t: Trail, literal: Literal, reason: u32) -> Trail
    requires { TrailReady t words.old × (t.length < SMALL) × (literal.0 < DOUBLE) }
    ensures { Assigns t words.old literal.0 reason result words.new }
{
    let v = literal.node() as usize;
    let sign = u32::from(literal.inverted());
    put(words, VALUES, v, sign + 1);
    put(words, LEVELS, v, t.level as u32);
    put(words, REASONS, v, reason);
    put(words, PHASES, v, 1 - sign);
    put(words, TRAIL, t.length, literal.0);
    Trail {
        length: t.length + 1,
        ..t
    }
}

// A literal's variable unassigned, and its block unknown; its phase stays.
fn unassign(words: &mut [u32], t: Trail, literal: Literal)
    requires { TrailReady t words.old }
    ensures { Undoes t words.old (Sat.unassign (assignment_of t words.old) literal.0) t words.new }
{
    let v = literal.node() as usize;
    stash(words, VALUES, SMALL, v, 0);
    stash(words, LEVELS, SMALL, v, 0);
    stash(words, REASONS, SMALL, v, 0);
    stash(words, BLOCKS, SMALL, v / BLOCK, 0);
}

// The literals of the trail from a place on unassigned.
fn unassign_from(words: &mut [u32], t: Trail, from: usize)
    requires { TrailReady t words.old × (from ≤ t.length) }
    ensures { Undoes t words.old (Sat.unassign_all (assignment_of t words.old) (drop from (assignment_of t words.old).trail)) t words.new }
{
    for i in from..t.length {
        let literal = Literal(fetch(words, TRAIL, SMALL, i));
        unassign(words, t, literal);
    }
}

// Back to a level: what was assigned above it is unassigned.
pub fn backtrack(words: &mut [u32], t: Trail, level: usize) -> Trail
    requires { TrailReady t words.old }
    ensures { Undoes t words.old (Sat.backtrack (assignment_of t words.old) level) result words.new }
{
    if t.level <= level {
        return t;
    }
    let head = fetch_below(words, LIMITS, SMALL, t.level, level) as usize;
    let length = head.min(t.length);
    unassign_from(words, t, length);
    Trail {
        length,
        head,
        level,
        ..t
    }
}

// The literal of a decision: the variable with its phase.
fn decision(words: &[u32], t: Trail, variable: u32) -> Literal
    requires { TrailReady t words.now × (variable < MOST-NODES) }
    ensures { result.0 ≡ Sat.decision (assignment_of t words.now) variable }
{
    let literal = Literal::of(variable);
    if fetch_below(words, PHASES, SMALL, t.variables, variable as usize) == 0 {
        literal.negate()
    } else {
        literal
    }
}

// One more decision level, which begins at the trail's end.
fn push_limit(words: &mut [u32], t: Trail) -> Trail
    requires { TrailReady t words.old × (t.level < SMALL) }
    ensures { Becomes t words.old (Sat.push_limit (assignment_of t words.old)) result words.new × (result.length ≡ t.length) }
{
    stash(words, LIMITS, SMALL, t.level, t.length as u32);
    Trail {
        level: t.level + 1,
        ..t
    }
}

// A variable decided, by its phase, at a new level.
pub fn decide(words: &mut [u32], t: Trail, variable: u32) -> Trail
    requires { TrailReady t words.old × (t.length < SMALL) × (t.level < SMALL) × (variable < MOST-NODES) }
    ensures { Becomes t words.old (decided (assignment_of t words.old) variable) result words.new }
{
    let literal = decision(words, t, variable);
    let deeper = push_limit(words, t);
    assign(words, deeper, literal, 0)
}

// The assignment of a new search of so many variables, counted with variable 0.
pub fn new(words: &mut [u32], variables: usize) -> Trail
    requires { (LENT ≤ length words.old) × (variables ≤ MOST-NODES) }
    ensures { News variables words.old result words.new }
{
    clear(words, VALUES, SMALL, variables);
    clear(words, LEVELS, SMALL, variables);
    clear(words, REASONS, SMALL, variables);
    clear(words, PHASES, SMALL, variables);
    clear(words, BLOCKS, SMALL, variables / BLOCK + 1);
    Trail {
        variables,
        length: 0,
        head: 0,
        level: 0,
    }
}
