// The memory that a check is lent: what it holds before a call, and the first place that is not as it has to be after one.
ghost use Rattle.std.specs.Prelude.{◌≡◌, ◌≢◌, ◌<◌, ℕ, IfSome, length, slice_index, unwrap_or};
ghost use Rattle.recorded.specs.Lent.{wanted_word};

// What the buffers hold before a call.
pub const HELD_BYTE: u8 = 90;

pub const HELD_WORD: u32 = 1515870810;

pub const HELD_SCORE: f64 = 7.25;

// The first byte of the buffer that is neither written as recorded nor held.
pub fn trace_fault(trace: &[u8], written: &[u8]) -> Option<usize>
    ensures { IfSome result (λ place. place < length trace.now) }
{
    trace
        .iter()
        .enumerate()
        .position(|(i, byte)| byte != written.get(i).unwrap_or(&HELD_BYTE))
}

// The first word that is not as it has to be: `inside` before the end of what was lent, held from there on. A loop, since `position` takes half as long again over eight million words.
pub fn word_fault(words: &[u32], end: usize, inside: u32) -> Option<usize>
    ensures inside { IfSome result (λ place. place < length words.now) }
    ensures wrong { IfSome result (λ place. slice_index words.now place ≢ wanted_word end inside place) }
    ensures right { (k : ℕ) → k < unwrap_or result (length words.now)
        → slice_index words.now k ≡ wanted_word end inside k }
{
    for (i, &word) in words.iter().enumerate() {
        let wanted = if i < end { inside } else { HELD_WORD };
        if word != wanted {
            return Some(i);
        }
    }
    None
}

// A score is all zero bits, which -0 is not; or the held one.
fn score_is(score: f64, zero: bool) -> bool {
    if zero {
        score == 0.0 && 0.0 < 1.0 / score
    } else {
        score == HELD_SCORE
    }
}

// The first score that is not as it has to be: zero before the end of what was lent where the check was accepted, held elsewhere.
pub fn score_fault(scores: &[f64], end: usize, accepted: bool) -> Option<usize>
    ensures { IfSome result (λ place. place < length scores.now) }
{
    scores
        .iter()
        .enumerate()
        .position(|(i, &score)| !score_is(score, accepted && i < end))
}
