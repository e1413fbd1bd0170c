// The numbers that a node reads, or a register as data: its data, enable and reset, and not its clock.
ghost use Rattle.std.specs.Prelude.{◌≡◌, ◌||◌, [], ◌∷◌, take};
ghost use Rattle.model.specs.Record.{inputs_per_kind};
ghost use Rattle.model.specs.Validate.{nodes_read, registers_read};
ghost use Rattle.struo_ir.specs.Decoded.{decoded};
ghost use Rattle.struo_ir.specs.Designs.{Padded};
ghost use Rattle.clock_reads.specs.Marks.{with_marks, Marked};
ghost use Rattle.clock_reads.specs.Reads.{signal_numbers, cell_numbers};

use crate::marks::mark;
use fields::inputs_per_kind;
use struo_ir::netlist::{Netlist, Node, RegisterCell};

// Marks the node's input numbers.
fn mark_inputs(table: &mut [bool], node: Node)
    ensures { table.new ≡ with_marks (take (inputs_per_kind node.kind) (node.first ∷ node.second ∷ node.third ∷ [])) table.old }
{
    let numbers = [node.first, node.second, node.third];
    let count = usize::from(inputs_per_kind(node.kind)).min(3);
    for &number in &numbers[..count] {
        mark(table, number);
    }
}

// Marks the signal of an enable or a reset, where its code has one.
fn mark_signal(table: &mut [bool], code: u8, signal: u16)
    ensures { table.new ≡ with_marks (signal_numbers code signal) table.old }
{
    if code == 0 {
        return;
    }
    mark(table, signal);
}

// Marks what the register reads as data.
fn mark_data(table: &mut [bool], cell: RegisterCell)
    ensures { table.new ≡ with_marks (cell_numbers cell) table.old }
{
    mark(table, cell.data);
    mark_signal(table, cell.enable, cell.enable_signal);
    mark_signal(table, cell.reset, cell.reset_signal);
}

// The table of what the nodes read.
fn node_reads(netlist: Netlist) -> [bool; 1024]
    requires { Padded netlist }
    ensures { Marked (λ s k. nodes_read k (decoded s netlist).nodes) result }
{
    let mut table = [false; 1024];
    for node in &netlist.nodes[..netlist.node_count] {
        mark_inputs(&mut table, *node);
    }
    table
}

// The table of what the nodes read, and the registers as data.
pub fn reads(netlist: Netlist) -> [bool; 1024]
    requires { Padded netlist }
    ensures { Marked (λ s k. nodes_read k (decoded s netlist).nodes || registers_read k (decoded s netlist).registers) result }
{
    let mut table = node_reads(netlist);
    for cell in &netlist.registers[..netlist.register_count] {
        mark_data(&mut table, *cell);
    }
    table
}
