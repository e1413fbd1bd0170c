// The unit clauses enqueued before the first decision.
ghost use Rattle.std.specs.Prelude.{◌≡◌, [], ◌+◌, ◌*◌, ◌<◌};
ghost use Rattle.std.proofs.Math.Option.{some};
ghost use Rattle.model.specs.Sat as Sat;
ghost use Rattle.assignment.specs.State.{assignment_of, enqueued, trail_after, word_reason};
ghost use Rattle.clauses.specs.Clauses.{literals_of, clauses_of};
ghost use Rattle.clauses.specs.State.{SoundStore};
ghost use Rattle.watches.specs.State.{UnitStep};

use assignment::state::Trail;
use assignment::trail::{assign, value};
use clauses::clause::clause;
use clauses::state::Store;
use literals::Literal;
use words::{LITERALS, load};

// A literal of the variables made true with its reason; an error where it is false.
pub fn enqueue(
    words: &mut [u32],
    store: Store,
    t: Trail,
    l: Literal,
    reason: u32,
) -> Result<Trail, Trail>
    requires { SoundStore store t words.old [] × (l.0 < t.variables * 2) }
    ensures { UnitStep store t words.old (trail_after result) words.new
        × (enqueued result words.new ≡ Sat.enqueue (assignment_of t words.old) l.0 (word_reason reason)) }
{
    match value(words, t, l) {
        Some(true) => Ok(t),
        Some(false) => Err(t),
        None => Ok(assign(words, t, l, reason)),
    }
}

// The clause with number id enqueued if it has one literal.
fn initialize_unit(words: &mut [u32], store: Store, t: Trail, id: usize) -> Result<Trail, Trail>
    requires { SoundStore store t words.old [] × (id < store.clauses) }
    ensures { UnitStep store t words.old (trail_after result) words.new
        × (enqueued result words.new ≡ Sat.initialize_unit (assignment_of t words.old) id (literals_of words.old id)) }
{
    let c = clause(words, id);
    let start = c.start as usize;
    if start + 1 == c.end as usize {
        let l = Literal(load(words, LITERALS, start));
        enqueue(words, store, t, l, (id + 1) as u32)
    } else {
        Ok(t)
    }
}

// The unit clauses enqueued in order, until one fails.
pub fn initialize_units(words: &mut [u32], store: Store, start: Trail) -> Result<Trail, Trail>
    requires { SoundStore store start words.old [] }
    ensures { UnitStep store start words.old (trail_after result) words.new
        × (enqueued result words.new ≡ Sat.initialize_units 0 (clauses_of store.clauses words.old) (some (assignment_of start words.old))) }
{
    let mut t = start;
    for id in 0..store.clauses {
        t = initialize_unit(words, store, t, id)?;
    }
    Ok(t)
}
