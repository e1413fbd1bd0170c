// The nodes of a record, read into an array by value.
ghost use Rattle.std.specs.Prelude.{◌≡◌, ◌+◌, ◌≤◌, cond, length, eqb};
ghost use Rattle.model.specs.Record as Record;
ghost use Rattle.fields.specs.Fields.{step_of, map_step};
ghost use Rattle.struo_ir.specs.Nodes.{three, detail_at, cell_at, NodesRead};

use crate::netlist::Node;
use fields::kinds::{CONSTANT, INPUT, OUTPUT};
use fields::{Field, inputs_per_kind, read_code_below, read_kind, read_name, read_number};

// The nodes of a record: how many, and zeros past them.
#[derive(Clone, Copy)]
pub struct Nodes {
    pub count: u16,
    pub nodes: [Node; 1024],
}

// As many 2-byte numbers as are left, at most three; 0 for each that is not.
pub fn read_inputs(bytes: &[u8], left: u8, at: u32) -> Field<[u16; 3]>
    requires { (length bytes.now ≤ 65535) × (left ≤ 3) }
    ensures { step_of result ≡ map_step three (Record.numbers left bytes.now at) }
{
    let mut numbers = [0; 3];
    let mut next = at;
    for i in 0..usize::from(left) {
        let (number, end) = read_number(bytes, next)?;
        numbers[i] = number;
        next = end;
    }
    Ok((numbers, next))
}

// The place of the name or the value, where the kind has one; else 0.
fn read_detail(bytes: &[u8], kind: u8, at: u32) -> Field<u16>
    requires { length bytes.now ≤ 65535 }
    ensures { step_of result ≡ detail_at kind bytes.now at }
{
    if kind == INPUT || kind == OUTPUT {
        return read_name(bytes, at);
    }
    if kind == CONSTANT {
        let (value, next) = read_code_below(bytes, 2, at)?;
        return Ok((u16::from(value), next));
    }
    Ok((0, at))
}

// A node, after so many Inputs and Outputs.
fn read_node(bytes: &[u8], inputs: u32, outputs: u32, at: u32) -> Field<Node>
    requires { length bytes.now ≤ 65535 }
    ensures { step_of result ≡ cell_at inputs outputs bytes.now at }
{
    let (kind, next) = read_kind(bytes, inputs, outputs, at)?;
    let (detail, after) = read_detail(bytes, kind, next)?;
    let ([first, second, third], end) = read_inputs(bytes, inputs_per_kind(kind), after)?;
    let node = Node {
        kind,
        detail,
        first,
        second,
        third,
    };
    Ok((node, end))
}

// The count with one more where the node is of the port's kind.
fn counted(count: u32, kind: u8, port: u8) -> u32
    requires { count ≤ 1024 }
    ensures { result ≡ count + cond (eqb kind port) 1 0 }
{
    if kind == port { count + 1 } else { count }
}

// The nodes after their count.
pub fn read_nodes(bytes: &[u8], count: u16, at: u32) -> Field<Nodes>
    requires { (length bytes.now ≤ 65535) × (count ≤ 1024) }
    ensures { NodesRead bytes.now count at result }
{
    let mut nodes = [Node::NONE; 1024];
    let mut inputs: u32 = 0;
    let mut outputs: u32 = 0;
    let mut next = at;
    for i in 0..usize::from(count) {
        let (node, end) = read_node(bytes, inputs, outputs, next)?;
        nodes[i] = node;
        inputs = counted(inputs, node.kind, INPUT);
        outputs = counted(outputs, node.kind, OUTPUT);
        next = end;
    }
    Ok((Nodes { count, nodes }, next))
}
