// The literal of a net in lent words, and literals of constants and control signals.
ghost use Rattle.std.specs.Prelude.{◌≡◌, ◌≤◌, length, eqb};
ghost use Rattle.words.specs.Layout.{LENT, NETS};
ghost use Rattle.words.specs.Region.{region};
ghost use Rattle.model.specs.Literal.{constant_literal};
ghost use Rattle.model.specs.Record.{level_of};
ghost use Rattle.model.specs.Transition.{asserted_literal, net_literal};

use literals::Literal;
use words::{NETS, TABLE, fetch};

// The literal of a net.
#[tactic(auto, unfolding(model::specs::Transition::net_literal))]
pub fn net_literal(words: &[u32], net: u16) -> Literal
    requires { LENT ≤ length words.now }
    ensures { result.0 ≡ net_literal (region NETS words.now) net }
{
    Literal(fetch(words, NETS, TABLE, usize::from(net)))
}

// The literal of a value 0 or 1.
#[tactic(auto, unfolding(model::specs::Literal::constant_literal))]
pub fn constant_literal(value: u16) -> Literal
    ensures { result.0 ≡ constant_literal (eqb value 1) }
{
    if value == 1 {
        Literal::TRUE
    } else {
        Literal::FALSE
    }
}

// A signal's literal as its active level asks.
#[tactic(auto, unfolding(model::specs::Transition::asserted_literal, model::specs::Record::level_of))]
pub fn asserted_literal(literal: Literal, active: u8) -> Literal
    ensures { result.0 ≡ asserted_literal literal.0 (level_of active) }
{
    if active == 1 {
        literal
    } else {
        literal.negate()
    }
}
