// The literals that the states of a design start with.
ghost use Rattle.std.specs.Prelude.{◌≡◌};
ghost use Rattle.model.specs.Literal.{constant_literal};
ghost use Rattle.model.specs.Run.{bit_at};
ghost use Rattle.struo_ir.specs.Orders.{Formed};
ghost use Rattle.transition.specs.Named.{Starts};

use crate::gather::of_each;
use literals::Literal;
use struo_ir::design::Design;

// The literal of the bit of a register's number; FALSE past the row.
#[tactic(auto, unfolding(model::specs::Literal::constant_literal, model::specs::Run::bit_at))]
fn start_literal(row: &[bool; 128], number: u16) -> Literal
    ensures { result.0 ≡ constant_literal (bit_at row.now number) }
{
    match row.get(usize::from(number)) {
        Some(true) => Literal::TRUE,
        _ => Literal::FALSE,
    }
}

// The literals of a row of stored bits, by register number, in byte order of the registers' names.
pub fn start_literals(design: Design, row: [bool; 128]) -> [u32; 128]
    requires { Formed design.registers }
    ensures { Starts design row result }
{
    let entries = &design.registers.entries[..design.registers.count];
    of_each(entries, |entry| start_literal(&row, entry.number).0)
}
