// The states of one side named as those of the other: one more than the rank of the other side's state, 0 for none.
ghost use Rattle.std.specs.Prelude.{◌≡◌};
ghost use Rattle.struo_ir.specs.Orders.{Formed};
ghost use Rattle.transition.specs.Match.{match_at};
ghost use Rattle.transition.specs.Named.{MatchesMade};

use crate::gather::of_each;
use name_order::names::same_name;
use struo_ir::design::{Design, Order};

// One more than the first rank of an order in the record `gate` whose name is that at a place of `gold`; 0 for none.
fn match_of(gold: &[u8], place: u16, gate: &[u8], order: &Order) -> u32
    requires { Formed order.now }
    ensures { result ≡ match_at gold.now place gate.now order.now }
{
    for (k, entry) in order.entries[..order.count].iter().enumerate() {
        if same_name(gold, usize::from(place), gate, usize::from(entry.name)) {
            return k as u32 + 1;
        }
    }
    0
}

// The match of each register of gold among those of gate, in byte order of names.
pub fn matches(gold: &[u8], gold_design: Design, gate: &[u8], gate_design: Design) -> [u32; 128]
    requires { Formed gold_design.registers × Formed gate_design.registers }
    ensures { MatchesMade gold.now gold_design gate.now gate_design result }
{
    let entries = &gold_design.registers.entries[..gold_design.registers.count];
    of_each(
        entries,
        |entry| match_of(gold, entry.name, gate, &gate_design.registers),
    )
}
