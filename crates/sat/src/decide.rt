// A decision: the unassigned variable of the highest score, by its phase, at a new level.
ghost use Rattle.std.specs.Prelude.{[], ◌<◌, ◌≤◌, length, take};
ghost use Rattle.words.specs.Layout.{SMALL};
ghost use Rattle.assignment.specs.Blocks.{Unsigned, KnownIn};
ghost use Rattle.clauses.specs.State.{SoundStore};
ghost use Rattle.sat.specs.DecideLaws.{Decides};

use assignment::choice::choose_variable;
use assignment::state::Trail;
use assignment::trail::decide as assign_decision;
use clauses::state::Store;

// A decision, or none where every variable is assigned.
pub fn decide(words: &mut [u32], scores: &[f64], store: Store, t: Trail) -> Option<Trail>
    requires { SoundStore store t words.old [] × (t.variables ≤ length scores.now) × (t.level < SMALL) × Unsigned (take t.variables scores.now) × KnownIn t words.old scores.now }
    ensures { Decides store t words.old scores.now result words.new }
{
    let v = choose_variable(words, scores, t)?;
    Some(assign_decision(words, t, v))
}
