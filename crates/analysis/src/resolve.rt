// The rounds of the analysis: a clause's literals seen, the pivot found, and the reason of the pivot next.
ghost use Rattle.std.specs.Prelude.{◌≡◌, false, ◌+◌, ◌-◌, ◌*◌, ◌<◌, ◌≤◌, length};
ghost use Rattle.std.proofs.Math.Seq.{slice};
ghost use Rattle.words.specs.Layout.{LENT, SMALL, STARTS, POOL, LITERALS};
ghost use Rattle.words.specs.Region.{region};
ghost use Rattle.model.specs.Sat as Sat;
ghost use Rattle.assignment.specs.State.{assignment_of, TrailReady};
ghost use Rattle.assignment.specs.Scores.{Fixed};
ghost use Rattle.analysis.specs.Analysis.{seen_of, Unmarked, analysis_of, saw, PoolBelow, ClausesBelow, TrailBelow, Ranged, Able, Sees, literals_at, view_of, Spans, Begins, Closes, Bounded, Analyzes};

use crate::state::{Analysis, Analyzed, Bounds};
use assignment::scores::bump_activity;
use assignment::state::{Activity, Trail};
use assignment::trail::fetch_below;
use literals::Literal;
use words::{
    CLAUSE_STARTS, LEARNED, LEVELS, LITERALS, POOL, REASONS, SEEN, SMALL, STARTS, TRAIL, fetch,
    load, put,
};

// Whether a literal is skipped: the resolved variable, a seen one, or one of level 0.
fn skipped(words: &[u32], t: Trail, stamp: u32, resolved: usize, literal: Literal) -> bool
    requires { TrailReady t words.now × (0 < stamp) × (literal.0 < t.variables * 2) }
    ensures { (a : Sat.Analysis) → a.seen ≡ seen_of stamp t words.now → result ≡ Sat.skipped (assignment_of t words.now) resolved a literal.0 }
{
    let v = literal.node() as usize;
    v == resolved || load(words, SEEN, v) == stamp || load(words, LEVELS, v) == 0
}

// A variable seen for the first time: open where it is of the current level, else its literal is learned.
fn see_variable(
    words: &mut [u32],
    scores: &mut [f64],
    t: Trail,
    a: Analysis,
    literal: Literal,
) -> Analysis
    requires { Able t a words.old scores.old × (literal.0 < t.variables * 2) }
    ensures { Sees 1 t a words.old scores.old
        (Sat.see_unless (assignment_of t words.old) (analysis_of t a words.old scores.old) literal.0 false)
        result words.new scores.new }
{
    let v = literal.node() as usize;
    let activity = bump_activity(words, scores, t, a.activity, v);
    put(words, SEEN, v, a.stamp);
    if load(words, LEVELS, v) as usize == t.level {
        return Analysis {
            activity,
            open_at_level: a.open_at_level + 1,
            ..a
        };
    }
    put(words, LEARNED, a.learned, literal.0);
    Analysis {
        activity,
        learned: a.learned + 1,
        ..a
    }
}

// A literal of a resolved clause, unless it is skipped.
fn see_literal(
    words: &mut [u32],
    scores: &mut [f64],
    t: Trail,
    a: Analysis,
    resolved: usize,
    literal: Literal,
) -> Analysis
    requires { Able t a words.old scores.old × (literal.0 < t.variables * 2) }
    ensures { Sees 1 t a words.old scores.old
        (saw (assignment_of t words.old) resolved (analysis_of t a words.old scores.old) literal.0)
        result words.new scores.new }
{
    if skipped(words, t, a.stamp, resolved, literal) {
        a
    } else {
        see_variable(words, scores, t, a, literal)
    }
}

// The literals of a clause in turn, those of the pool from `start` up to `end`.
fn see_literals(
    words: &mut [u32],
    scores: &mut [f64],
    t: Trail,
    earlier: Analysis,
    resolved: usize,
    start: usize,
    end: usize,
) -> Analysis
    requires { Able t earlier words.old scores.old × (end ≤ POOL) × PoolBelow end t.variables words.old × (earlier.open_at_level + POOL < 1152921504606846976)
        × (length (Sat.see_literals (assignment_of t words.old) resolved (analysis_of t earlier words.old scores.old) (slice start end (region LITERALS words.old))).learned < SMALL) }
    ensures { Sees POOL t earlier words.old scores.old
        (Sat.see_literals (assignment_of t words.old) resolved (analysis_of t earlier words.old scores.old) (slice start end (region LITERALS words.old)))
        result words.new scores.new }
{
    let mut a = earlier;
    for i in start..end {
        let literal = Literal(load(words, LITERALS, i));
        a = see_literal(words, scores, t, a, resolved, literal);
    }
    a
}

// Where the literals of a clause lie, one of `clauses`; nowhere past them.
fn bounds(words: &[u32], clauses: usize, id: usize) -> Bounds
    requires { LENT ≤ length words.now }
    ensures { Spans clauses words.now id result }
{
    if clauses <= id {
        return Bounds { start: 0, end: 0 };
    }
    let start = fetch(words, CLAUSE_STARTS, STARTS, id) as usize;
    let end = fetch(words, CLAUSE_STARTS, STARTS, id + 1) as usize;
    Bounds {
        start,
        end: end.min(POOL),
    }
}

// The literals of a clause, given by its number.
fn see_clause(
    words: &mut [u32],
    scores: &mut [f64],
    t: Trail,
    a: Analysis,
    resolved: usize,
    clauses: usize,
    id: usize,
) -> Analysis
    requires { Able t a words.old scores.old × ClausesBelow clauses t.variables words.old × (a.open_at_level + POOL < 1152921504606846976)
        × (length (Sat.see_literals (assignment_of t words.old) resolved (analysis_of t a words.old scores.old) (literals_at clauses words.old id)).learned < SMALL) }
    ensures { Sees POOL t a words.old scores.old
        (Sat.see_literals (assignment_of t words.old) resolved (analysis_of t a words.old scores.old) (literals_at clauses words.old id))
        result words.new scores.new }
{
    let place = bounds(words, clauses, id);
    see_literals(words, scores, t, a, resolved, place.start, place.end)
}

// The reason clause of a variable; 0 where it has none.
fn reason_of(words: &[u32], t: Trail, variable: usize) -> usize
    requires { TrailReady t words.now × (variable < t.variables) }
    ensures { result ≡ Sat.reason_of (assignment_of t words.now) variable }
{
    (load(words, REASONS, variable) as usize).saturating_sub(1)
}

// The place of the last literal of the trail below `end` whose variable is seen; 0 where there is none, as the definition has it.
fn pivot_index(words: &[u32], t: Trail, stamp: u32, end: usize) -> usize
    requires { TrailReady t words.now × TrailBelow t words.now × (0 < stamp) × (end ≤ t.length) }
    ensures { (result ≡ Sat.pivot_index (assignment_of t words.now) (seen_of stamp t words.now) end) × (result ≤ end) }
{
    for i in (0..end).rev() {
        let candidate = Literal(load(words, TRAIL, i));
        if load(words, SEEN, candidate.node() as usize) == stamp {
            return i;
        }
    }
    0
}

// The pivot no longer seen, and one less open.
fn close_pivot(words: &mut [u32], t: Trail, a: Analysis, pivot: Literal) -> Analysis
    requires { TrailReady t words.old × (0 < a.stamp) × (pivot.0 < t.variables * 2) }
    ensures { Closes t a words.old pivot.0 result words.new }
{
    put(words, SEEN, pivot.node() as usize, 0);
    Analysis {
        open_at_level: a.open_at_level.saturating_sub(1),
        ..a
    }
}

// The analysis before its first round. Every mark of an earlier conflict is at most the number of clauses, so that nothing is seen.
fn start(activity: Activity, clauses: usize) -> Analysis
    requires { clauses < STARTS }
    ensures { Begins activity clauses result }
{
    Analysis {
        activity,
        learned: 0,
        open_at_level: 0,
        stamp: (clauses + 1) as u32,
    }
}

// The clause that a conflict teaches: rounds until one literal of the current level is left, whose negation is learned first.
// Each round resolves with the reason of the last seen literal of the trail; there are at most as many as the trail has literals.
pub fn analyze(
    words: &mut [u32],
    scores: &mut [f64],
    t: Trail,
    activity: Activity,
    clauses: usize,
    conflict: usize,
) -> Analyzed
    requires { TrailReady t words.old × (t.variables ≤ length scores.old) × Fixed activity × (clauses < STARTS) × Unmarked clauses t.variables words.old × Ranged clauses t words.old
        × Bounded (Sat.analyze (view_of clauses t activity words.old scores.old) conflict) }
    ensures { Analyzes clauses t activity conflict words.old scores.old result words.new scores.new }
{
    let mut a = start(activity, clauses);
    let mut trail_index = t.length;
    let mut rounds = t.length;
    let mut clause = conflict;
    let mut resolved = 0;
    loop {
        a = see_clause(words, scores, t, a, resolved, clauses, clause);
        trail_index = pivot_index(words, t, a.stamp, trail_index);
        let pivot = Literal(fetch_below(words, TRAIL, SMALL, t.length, trail_index));
        a = close_pivot(words, t, a, pivot);
        if a.open_at_level == 0 {
            return Analyzed { analysis: a, pivot };
        }
        resolved = pivot.node() as usize;
        clause = reason_of(words, t, resolved);
        rounds -= 1;
    }
}
