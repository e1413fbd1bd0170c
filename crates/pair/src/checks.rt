// The checks of a pair of accepted designs, refusals 18 to 22, in the specification's order.
ghost use Rattle.std.specs.Prelude.{◌≡◌, List, ℕ, ◌<◌, get_or};
ghost use Rattle.std.proofs.Math.ListN.{get_elem?};
ghost use Rattle.model.specs.Names.{same_names, names_of};
ghost use Rattle.model.specs.Netlist.{input_name};
ghost use Rattle.model.specs.Record.{edge_of};
ghost use Rattle.model.specs.Pair.{name_or, same_domain, many_domains, domain, domains_differ, interface_fault, resets_fault, initial_fault};
ghost use Rattle.model.specs.Pair as Model;
ghost use Rattle.calls.specs.Causes.{fault_of, side_of};
ghost use Rattle.calls.specs.declared.refusal.Cause.TheVariants as Cause;
ghost use Rattle.struo_ir.specs.Decoded.{decoded_node, decoded};
ghost use Rattle.struo_ir.specs.Designs.{Sized, Sided};
ghost use Rattle.struo_ir.specs.Orders.{Formed, no_entry, places};
ghost use Rattle.pair.specs.PairChecks.{domain_by, lacks_reset, domains_fault};
ghost use Rattle.pair.specs.PairReading.{said};

use crate::accepted::Pair;
use calls::refusal::{Cause, Refusal, Side};
use fields::kinds::{CONSTANT, INPUT};
use name_order::names::{name_of, same, same_name};
use struo_ir::design::{Design, Order};
use struo_ir::netlist::{Netlist, Node, RegisterCell};

// The two orders have the same names.
fn same_names(gold: &[u8], gold_order: &Order, gate: &[u8], gate_order: &Order) -> bool
    requires { (Formed gold_order.now) × (Formed gate_order.now) }
    ensures { result ≡ same_names (names_of (places gold.now gold_order.now)) (names_of (places gate.now gate_order.now)) }
{
    for k in 0..gold_order.count {
        if k >= gate_order.count {
            return false;
        }
        let gold_entry = gold_order.entries[k];
        let gate_entry = gate_order.entries[k];
        if !same_name(
            gold,
            usize::from(gold_entry.name),
            gate,
            usize::from(gate_entry.name),
        ) {
            return false;
        }
    }
    gold_order.count == gate_order.count
}

// The name of an Input node; no bytes for another node.
fn input_name(bytes: &[u8], node: Node) -> &[u8]
    ensures { result.now ≡ name_or (input_name (decoded_node bytes.now node)) }
{
    if node.kind == INPUT {
        name_of(bytes, usize::from(node.detail))
    } else {
        let end = bytes.len();
        &bytes[end..]
    }
}

// The node of a number; where there is none, one that is no Input.
fn clock_node(netlist: &Netlist, clock: usize) -> Node
    requires { Sized netlist.now }
    ensures { (s : List ℕ) → name_or (input_name (decoded_node s result)) ≡ Model.name_at (get_elem? (decoded s netlist.now).nodes clock) }
{
    if clock < netlist.node_count {
        netlist.nodes[clock]
    } else {
        Node {
            kind: CONSTANT,
            detail: 0,
            first: 0,
            second: 0,
            third: 0,
        }
    }
}

// The same clock name and edge.
fn same_domain(
    gold: &[u8],
    gold_clock: Node,
    gold_edge: u8,
    gate: &[u8],
    gate_clock: Node,
    gate_edge: u8,
) -> bool
    ensures { result ≡ same_domain (domain_by gold.now gold_clock gold_edge) (domain_by gate.now gate_clock gate_edge) }
{
    if same(input_name(gold, gold_clock), input_name(gate, gate_clock)) {
        same_edge(gold_edge, gate_edge)
    } else {
        false
    }
}

// Edge codes: 0 is rising, another one falling.
fn same_edge(edge: u8, other: u8) -> bool
    ensures { result ≡ Model.same_edge (edge_of edge) (edge_of other) }
{
    if edge == 0 { other == 0 } else { other != 0 }
}

// 20: the registers have two clock names or edges.
fn many_domains(bytes: &[u8], netlist: &Netlist) -> bool
    requires { Sized netlist.now }
    ensures { result ≡ many_domains (decoded bytes.now netlist.now).nodes (decoded bytes.now netlist.now).registers }
{
    let count = netlist.register_count;
    if count == 0 {
        return false;
    }
    let first = netlist.registers[0];
    let clock = clock_node(netlist, usize::from(first.clock));
    for k in 1..count {
        let cell = netlist.registers[k];
        let other = clock_node(netlist, usize::from(cell.clock));
        if !same_domain(bytes, clock, first.edge, bytes, other, cell.edge) {
            return true;
        }
    }
    false
}

// 21: the domains of the two sides differ, or only one side has registers.
fn domains_differ(gold: &[u8], gold_netlist: &Netlist, gate: &[u8], gate_netlist: &Netlist) -> bool
    requires { (Sized gold_netlist.now) × (Sized gate_netlist.now) }
    ensures { result ≡ domains_differ (domain (decoded gold.now gold_netlist.now).nodes (decoded gold.now gold_netlist.now).registers) (domain (decoded gate.now gate_netlist.now).nodes (decoded gate.now gate_netlist.now).registers) }
{
    let gold_cell = gold_netlist.registers[0];
    let gate_cell = gate_netlist.registers[0];
    if gold_netlist.register_count == 0 {
        return gate_netlist.register_count != 0;
    }
    if gate_netlist.register_count == 0 {
        return true;
    }
    let gold_clock = clock_node(gold_netlist, usize::from(gold_cell.clock));
    let gate_clock = clock_node(gate_netlist, usize::from(gate_cell.clock));
    !same_domain(
        gold,
        gold_clock,
        gold_cell.edge,
        gate,
        gate_clock,
        gate_cell.edge,
    )
}

// A register of that number has no reset.
fn lacks_reset(number: usize, count: usize, cell: RegisterCell) -> bool
    ensures { result ≡ lacks_reset number count cell }
{
    if number < count {
        cell.reset == 0
    } else {
        false
    }
}

// A register number that is below 128: the number itself, or 0 in the place of a larger one.
fn within(k: usize) -> usize
    ensures { (result < 128) × (k < 128 → result ≡ k) }
{
    if k < 128 { k } else { 0 }
}

// The number of the entry at a rank.
fn number_at(order: &Order, k: usize) -> u16
    requires { k < 128 }
    ensures { result ≡ (get_or order.now.entries k no_entry).number }
{
    let entry = order.entries[k];
    entry.number
}

// 22 on a side: the first place of the order whose register has no reset.
fn resets_fault(side: Side, netlist: &Netlist, order: &Order) -> Result<(), Refusal>
    requires { (Sized netlist.now) × (Formed order.now) }
    ensures { (s : List ℕ) → fault_of result ≡ resets_fault (side_of side) (decoded s netlist.now).registers (places s order.now) }
{
    let limit = netlist.register_count;
    for k in 0..order.count {
        let register = number_at(order, k);
        let number = usize::from(register);
        let cell = netlist.registers[within(number)];
        if lacks_reset(number, limit, cell) {
            return Err(Refusal {
                cause: Cause::UnknownInitialState,
                side,
                place: u32::from(register),
            });
        }
    }
    Ok(())
}

// 22: gold by name, then gate by name.
pub fn initial_fault(gold: &Design, gate: &Design) -> Result<(), Refusal>
    requires { (Sized gold.now.netlist) × (Formed gold.now.registers) × (Sized gate.now.netlist) × (Formed gate.now.registers) }
    ensures { (s t : List ℕ) → Sided s gold.now → Sided t gate.now → fault_of result ≡ initial_fault (decoded s gold.now.netlist) (decoded t gate.now.netlist) }
{
    resets_fault(Side::Gold, &gold.netlist, &gold.registers)?;
    resets_fault(Side::Gate, &gate.netlist, &gate.registers)
}

// 20 on a side.
fn many_of(side: Side) -> Refusal
    ensures { result ≡ record { cause = Cause.MultipleClockDomains; side = side; place = 0 } }
{
    Refusal {
        cause: Cause::MultipleClockDomains,
        side,
        place: 0,
    }
}

// 20 and 21.
fn domains_fault(
    gold: &[u8],
    gold_netlist: &Netlist,
    gate: &[u8],
    gate_netlist: &Netlist,
) -> Result<(), Refusal>
    requires { (Sized gold_netlist.now) × (Sized gate_netlist.now) }
    ensures { fault_of result ≡ domains_fault (decoded gold.now gold_netlist.now) (decoded gate.now gate_netlist.now) }
{
    if many_domains(gold, gold_netlist) {
        return Err(many_of(Side::Gold));
    }
    if many_domains(gate, gate_netlist) {
        return Err(many_of(Side::Gate));
    }
    if domains_differ(gold, gold_netlist, gate, gate_netlist) {
        return Err(Refusal::of_pair(Cause::ClockDomain));
    }
    Ok(())
}

// 18 to 21.
pub fn interface_fault(pair: &Pair) -> Result<(), Refusal>
    ensures { fault_of result ≡ interface_fault (said pair.now.gold) (said pair.now.gate) }
{
    let (gold, gate) = (&pair.gold, &pair.gate);
    if !same_names(
        gold.bytes,
        &gold.design.inputs,
        gate.bytes,
        &gate.design.inputs,
    ) {
        return Err(Refusal::of_pair(Cause::InputInterface));
    }
    if !same_names(
        gold.bytes,
        &gold.design.outputs,
        gate.bytes,
        &gate.design.outputs,
    ) {
        return Err(Refusal::of_pair(Cause::OutputInterface));
    }
    domains_fault(
        gold.bytes,
        &gold.design.netlist,
        gate.bytes,
        &gate.design.netlist,
    )
}
