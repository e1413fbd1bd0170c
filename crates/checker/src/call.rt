// The call check: both records are read, gold wholly, then gate; two accepted records are checked as a pair.
ghost use Rattle.std.specs.Prelude.{◌≡◌};
ghost use Rattle.model.specs.Check as Model;
ghost use Rattle.calls.specs.Answers.{checked_of};
ghost use Rattle.calls.specs.Options.{options_of};

use crate::accepted::check_pair;
use calls::answers::CheckAnswer;
use calls::options::Options;
use pair::reading::read_pair;

// The check of a pair under a caller's options: nothing is asked of records, options or buffers.
pub fn check(
    gold: &[u8],
    gate: &[u8],
    options: Options,
    trace: &mut [u8],
    words: &mut [u32],
    scores: &mut [f64],
) -> CheckAnswer
    ensures { checked_of result trace.new words.new scores.new
        ≡ Model.check gold.now gate.now (options_of options) trace.old words.old scores.old }
{
    let read = read_pair(gold, gate);
    match &read {
        Err(refusal) => CheckAnswer::from(*refusal),
        Ok(pair) => check_pair(pair, options, trace, words, scores),
    }
}
