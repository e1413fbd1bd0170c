// A query asked: the search of its graph and assumptions.
ghost use Rattle.queries.specs.Asking.{Askable, Asked};

use sat::solve::solve;
use sat::state::Answer;

// The answer for the first `nodes` nodes in the words and the first `count` assumptions, under a limit of learned literals.
pub fn ask(
    words: &mut [u32],
    scores: &mut [f64],
    assumptions: &[u32; 128],
    count: usize,
    nodes: u32,
    limit: usize,
) -> Answer
    requires { Askable limit nodes words.old scores.old assumptions.now count }
    ensures { Asked limit nodes words.old assumptions.now count result words.new scores.new }
{
    solve(words, scores, assumptions, count, nodes as usize, limit)
}
