// The record reader: from a record's bytes to a netlist, or the first refusal of 1 to 6.
ghost use Rattle.std.specs.Prelude.{◌≡◌, ◌≤◌, length, take, drop};
ghost use Rattle.model.specs.Record as Record;
ghost use Rattle.struo_ir.specs.Designs.{NodesPadded};
ghost use Rattle.struo_ir.specs.Reading.{outcome_of, PaddedWhere, NodesCounted, RegistersCounted, from_registers};
ghost use Rattle.struo_ir.specs.Nodes.{nodes_to};

use crate::netlist::Netlist;
use crate::nodes::{Nodes, read_nodes};
use crate::registers::{Registers, read_registers};
use calls::refusal::{Cause, Refusal};
use fields::{Field, read_name, read_number};

// The node count, at most 1,024, and the nodes.
fn read_counted_nodes(bytes: &[u8], at: u32) -> Field<Nodes>
    requires { length bytes.now ≤ 65535 }
    ensures { NodesCounted bytes.now at result }
{
    let (count, next) = read_number(bytes, at)?;
    if count <= 1024 {
        read_nodes(bytes, count, next)
    } else {
        Err(Refusal::at(Cause::Count, at))
    }
}

// The register count, at most 128, and the registers.
fn read_counted_registers(bytes: &[u8], at: u32) -> Field<Registers>
    requires { length bytes.now ≤ 65535 }
    ensures { RegistersCounted bytes.now at result }
{
    let (count, next) = read_number(bytes, at)?;
    if count <= 128 {
        read_registers(bytes, count, next)
    } else {
        Err(Refusal::at(Cause::Count, at))
    }
}

// The registers after the nodes; no byte may be left.
fn read_rest(bytes: &[u8], nodes: Nodes, at: u32) -> Result<Netlist, Refusal>
    requires { (length bytes.now ≤ 65535) × NodesPadded nodes.count nodes.nodes }
    ensures reads { outcome_of bytes.now result ≡ from_registers (nodes_to bytes.now nodes.nodes nodes.count) bytes.now at }
    ensures padded { PaddedWhere result }
{
    let (registers, end) = read_counted_registers(bytes, at)?;
    if (end as usize) < bytes.len() {
        return Err(Refusal::at(Cause::Cut, end));
    }
    let node_cells = nodes.nodes;
    let register_cells = registers.registers;
    Ok(Netlist {
        node_count: usize::from(nodes.count),
        register_count: usize::from(registers.count),
        nodes: node_cells,
        registers: register_cells,
    })
}

// Version 1 after the length: design name, nodes, registers.
fn read_fields(bytes: &[u8]) -> Result<Netlist, Refusal>
    requires { length bytes.now ≤ 65535 }
    ensures reads { outcome_of bytes.now result ≡ Record.finished (Record.version1 bytes.now 5) }
    ensures padded { PaddedWhere result }
{
    let (_, next) = read_name(bytes, 5)?;
    let (nodes, after) = read_counted_nodes(bytes, next)?;
    read_rest(bytes, nodes, after)
}

// The length field, bytes 1 to 4.
fn length_field(bytes: &[u8]) -> u32
    requires { 5 ≤ length bytes.now }
    ensures { result ≡ Record.big_endian 0 (take 4 (drop 1 bytes.now)) }
{
    u32::from_be_bytes([bytes[1], bytes[2], bytes[3], bytes[4]])
}

// 5 to 65,535 bytes, and the length field says how many.
fn length_fits(bytes: &[u8]) -> bool
    ensures { result ≡ Record.length_fits bytes.now }
{
    let n = bytes.len();
    if n < 5 {
        return false;
    }
    if 65535 < n {
        return false;
    }
    length_field(bytes) as usize == n
}

// The netlist that the bytes of a record say, or the first refusal of 1 to 6.
pub fn read_design(bytes: &[u8]) -> Result<Netlist, Refusal>
    ensures reads { outcome_of bytes.now result ≡ Record.parse bytes.now }
    ensures padded { PaddedWhere result }
{
    if !length_fits(bytes) {
        return Err(Refusal::at(Cause::Length, 0));
    }
    if bytes[0] != 1 {
        return Err(Refusal::at(Cause::Version, 0));
    }
    read_fields(bytes)
}
