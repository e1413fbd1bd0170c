// The check of two accepted records: the first refusal of the pair, or the proof, after which all work memory is zero.
ghost use Rattle.std.specs.Prelude.{◌≡◌};
ghost use Rattle.std.proofs.Math.Option.{none};
ghost use Rattle.model.specs.Check as Model;
ghost use Rattle.model.specs.Check.{accepted_check, check_designs, check_pair, check_result};
ghost use Rattle.model.specs.Pair.{check_fault};
ghost use Rattle.model.specs.Sat.{score_zero};
ghost use Rattle.calls.specs.Answers.{checked_of};
ghost use Rattle.calls.specs.Options.{options_of};
ghost use Rattle.pair.specs.PairReading.{said};
ghost use Rattle.checker.specs.Results.{Cleared};

use crate::answer::answered;
use crate::sides::sides;
use calls::answers::CheckAnswer;
use calls::options::{Lent, Options};
use depths::prove::prove_sequential_equivalence;
use pair::accepted::Pair;
use refusals::check_fault;
use run::run::initial_row;
use words::{clear_scores, clear_words};

// All work memory becomes zero, whatever its length.
fn clear_memory(words: &mut [u32], scores: &mut [f64])
    ensures { (Cleared 0 words.old words.new) × (Cleared score_zero scores.old scores.new) }
{
    clear_words(words);
    clear_scores(scores);
}

// The check of an accepted pair begun at rows of stored bits; after it all work memory is zero.
fn prove(
    pair: &Pair,
    gold_row: [bool; 128],
    gate_row: [bool; 128],
    options: Options,
    trace: &mut [u8],
    words: &mut [u32],
    scores: &mut [f64],
) -> CheckAnswer
    requires { check_fault (said pair.now.gold) (said pair.now.gate) (options_of options) (Model.lent_of trace.old words.old scores.old) ≡ none }
    ensures { checked_of result trace.new words.new scores.new
        ≡ check_result (accepted_check (check_designs (options_of options) (said pair.now.gold) (said pair.now.gate) gold_row gate_row))
        trace.old words.old scores.old }
{
    let problem = sides(words, pair, gold_row, gate_row);
    let outcome = prove_sequential_equivalence(&problem, words, scores, trace, options);
    clear_memory(words, scores);
    let earliest = options.earliest;
    answered(outcome, earliest)
}

// The check of two accepted records from their initial states: the first refusal of 16, 17, 36 and 18 to 24, or the proof.
// It is not inlined, so that what it holds is not on the stack while the records are read.
#[inline(never)]
pub fn check_pair(
    pair: &Pair,
    options: Options,
    trace: &mut [u8],
    words: &mut [u32],
    scores: &mut [f64],
) -> CheckAnswer
    ensures { checked_of result trace.new words.new scores.new
        ≡ check_result (check_pair (options_of options) (said pair.now.gold) (said pair.now.gate)
        (check_fault (said pair.now.gold) (said pair.now.gate) (options_of options) (Model.lent_of trace.old words.old scores.old)))
        trace.old words.old scores.old }
{
    let lent = Lent {
        trace: trace.len(),
        words: words.len(),
        scores: scores.len(),
    };
    match check_fault(pair, options, lent) {
        Err(refusal) => CheckAnswer::from(refusal),
        Ok(()) => {
            let gold_row = initial_row(pair.gold.design.netlist);
            let gate_row = initial_row(pair.gate.design.netlist);
            prove(pair, gold_row, gate_row, options, trace, words, scores)
        }
    }
}
