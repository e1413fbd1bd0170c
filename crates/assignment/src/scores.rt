// The scores of the variables: bumps, the rescaling and the decay, bit for bit as sat.rs rounds them.
ghost use Rattle.std.specs.Prelude.{◌+◌, ◌<◌, ◌≤◌, length};
ghost use Rattle.std.proofs.Math.Seq.{slice};
ghost use Rattle.words.specs.Layout.{POOL, LITERALS};
ghost use Rattle.words.specs.Region.{region};
ghost use Rattle.assignment.specs.State.{TrailReady};
ghost use Rattle.assignment.specs.Scores.{Fixed, Starts, Decays, Rescaled, Raised, ZeroScores};
ghost use Rattle.assignment.specs.Blocks.{Bumps, AddsOnes};

use crate::blocks::{forget, forget_all};
use crate::state::{Activity, Trail};
use literals::Literal;
use words::{LITERALS, load};

// The increment, decay and ceiling of a new search.
pub fn start() -> Activity
    ensures { Starts result }
{
    Activity {
        increment: 1.0,
        decay: 0.95,
        ceiling: 1.0e100,
    }
}

// The increment divided by the decay, as after each conflict.
pub fn decay_activity(activity: Activity) -> Activity
    requires { Fixed activity }
    ensures { Decays activity result }
{
    Activity {
        increment: activity.increment / activity.decay,
        ..activity
    }
}

// What all scores and the increment are multiplied by above the ceiling.
const RESCALE_FACTOR: f64 = 1.0e-100;

// The first n scores multiplied by the factor.
fn rescale(scores: &mut [f64], n: usize)
    requires { n ≤ length scores.old }
    ensures { Rescaled n scores.old scores.new }
{
    for score in scores[..n].iter_mut() {
        *score *= RESCALE_FACTOR;
    }
}

// x added to the score of a variable, one of n.
fn add_score(scores: &mut [f64], n: usize, variable: usize, x: f64)
    requires { n ≤ length scores.old }
    ensures { Raised n variable x scores.old scores.new }
{
    if variable < n {
        scores[variable] += x;
    }
}

// The increment added to the score of a variable, and a rescale above the ceiling.
pub fn bump_activity(
    words: &mut [u32],
    scores: &mut [f64],
    t: Trail,
    activity: Activity,
    variable: usize,
) -> Activity
    requires { TrailReady t words.old × Fixed activity × (t.variables ≤ length scores.old) }
    ensures { Bumps t activity variable words.old scores.old result words.new scores.new }
{
    let n = t.variables;
    if n <= variable {
        return activity;
    }
    let x = scores[variable] + activity.increment;
    scores[variable] = x;
    if activity.ceiling < x {
        rescale(scores, n);
        forget_all(words, t);
        return Activity {
            increment: activity.increment * RESCALE_FACTOR,
            ..activity
        };
    }
    forget(words, t, variable);
    activity
}

// The first n scores 0, as a new search has them.
pub fn clear_scores(scores: &mut [f64], n: usize)
    requires { n ≤ length scores.old }
    ensures { ZeroScores n scores.old scores.new }
{
    scores[..n].fill(0.0);
}

// 1.0 added to the score of each literal's variable, the literals being those of the pool from `start` up to `end`.
pub fn add_ones(words: &mut [u32], scores: &mut [f64], t: Trail, start: usize, end: usize)
    requires { TrailReady t words.old × (t.variables ≤ length scores.old) × (start ≤ end) × (end ≤ POOL) }
    ensures { AddsOnes t (slice start end (region LITERALS words.old)) words.old scores.old words.new scores.new }
{
    for i in start..end {
        let literal = Literal(load(words, LITERALS, i));
        let variable = literal.node() as usize;
        add_score(scores, t.variables, variable, 1.0);
        forget(words, t, variable);
    }
}
