// The checks of the nodes: 7 an input number that is not below the node's own, 8 a port's name a second time.
ghost use Rattle.std.specs.Prelude.{◌≡◌, ◌+◌, ◌≤◌, cond, false, [], ◌∷◌, take, ltb};
ghost use Rattle.std.specs.List.{list_all};
ghost use Rattle.model.specs.Names.{member_name};
ghost use Rattle.model.specs.Record.{inputs_per_kind, has_name};
ghost use Rattle.model.specs.Validate.{all_below, nodes_fault};
ghost use Rattle.calls.specs.Causes.{fault_of};
ghost use Rattle.struo_ir.specs.Decoded.{name_at, decoded};
ghost use Rattle.struo_ir.specs.Designs.{Padded};
ghost use Rattle.netlist_checks.specs.Seen.{names_before};

use crate::names::repeated;
use calls::refusal::{Cause, Refusal};
use fields::inputs_per_kind;
use fields::kinds::{INPUT, OUTPUT};
use struo_ir::netlist::{Netlist, Node};

// Every number is below i.
fn numbers_below(numbers: &[u16], i: usize) -> bool
    ensures { result ≡ list_all (λ number. ltb number i) numbers.now }
{
    numbers.iter().all(|&number| usize::from(number) < i)
}

// Every input number of the node is below i.
fn inputs_below(node: Node, i: usize) -> bool
    ensures { result ≡ all_below i (take (inputs_per_kind node.kind) (node.first ∷ node.second ∷ node.third ∷ [])) }
{
    let numbers = [node.first, node.second, node.third];
    let count = usize::from(inputs_per_kind(node.kind)).min(3);
    numbers_below(&numbers[..count], i)
}

// The kinds with a name.
fn is_port(kind: u8) -> bool
    ensures { result ≡ has_name kind }
{
    kind == INPUT || kind == OUTPUT
}

// The node is a port, and its name is one of the earlier ports'.
fn port_repeats(bytes: &[u8], ports: &[u16; 1024], count: usize, kind: u8, place: u16) -> bool
    requires { count ≤ 1024 }
    ensures { result ≡ cond (has_name kind) (member_name (name_at bytes.now place) (names_before bytes.now ports.now count)) false }
{
    is_port(kind) && repeated(bytes, ports, count, place)
}

// The count with one more after a port.
fn ports_after(count: usize, kind: u8) -> usize
    requires { count ≤ 1024 }
    ensures { result ≡ count + cond (has_name kind) 1 0 }
{
    if is_port(kind) { count + 1 } else { count }
}

// 7 and 8, by node.
pub fn nodes_fault(bytes: &[u8], netlist: Netlist) -> Result<(), Refusal>
    requires { Padded netlist }
    ensures { fault_of result ≡ nodes_fault 0 [] (decoded bytes.now netlist).nodes }
{
    let count = netlist.node_count;
    let mut ports = [0u16; 1024];
    let mut found: usize = 0;
    for i in 0..count {
        let node = netlist.nodes[i];
        let kind = node.kind;
        let place = node.detail;
        if inputs_below(node, i) {
            if port_repeats(bytes, &ports, found, kind, place) {
                return Err(Refusal::at(Cause::DuplicatePortName, i as u32));
            }
        } else {
            return Err(Refusal::at(Cause::UndefinedNet, i as u32));
        }
        ports[found] = place;
        found = ports_after(found, kind);
    }
    Ok(())
}
