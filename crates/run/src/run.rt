// One cycle of the run of a decoded design: node values in an array by value, next stored bits, outputs by name.
ghost use Rattle.std.specs.Prelude.{◌≡◌, Bool, List, map, ℕ, ◌+◌, ◌≤◌, length, take, drop};
ghost use Rattle.std.specs.Fn.{FnReturnsAt};
ghost use Rattle.model.specs.Names.{Place};
ghost use Rattle.model.specs.Record.{level_of};
ghost use Rattle.model.specs.Run.{bit_at, shown_bit, enabled_bit, reset_bit, node_values, next_stored, initial_bits, initial_bit};
ghost use Rattle.model.specs.Run as Run;
ghost use Rattle.model.specs.Replay.{claim_bit};
ghost use Rattle.drivers.specs.Drivers.{Drivers};
ghost use Rattle.struo_ir.specs.Decoded.{cell_enable, cell_reset, decoded};
ghost use Rattle.struo_ir.specs.Designs.{Sized};
ghost use Rattle.struo_ir.specs.Orders.{Formed, places};
ghost use Rattle.run.specs.RunTables.{next_of, value_of, node_by, shown_by, Ranked, row_inputs, padded};

use drivers::register_of;
use fields::kinds::{AND, CONSTANT, INPUT, MUX, NOT, OR, OUTPUT, REGISTER_OUTPUT, XOR};
use struo_ir::design::Order;
use struo_ir::netlist::{Netlist, Node, RegisterCell};

// The bit at a number; false past the end.
#[tactic(auto, unfolding(model::specs::Run::bit_at))]
pub fn bit_at(bits: &[bool], k: usize) -> bool
    ensures { result ≡ bit_at bits.now k }
{
    bits.get(k).copied().unwrap_or(false)
}

// The byte at a place of the claim, as a bit; false past the end.
#[tactic(auto, unfolding(model::specs::Replay::claim_bit, model::specs::Record::bit))]
pub fn claim_bit(claim: &[u8], k: usize) -> bool
    ensures { result ≡ claim_bit claim.now k }
{
    claim.get(k).is_some_and(|byte| *byte == 1)
}

// A control signal is asserted: level code 1 is active high, another one active low.
#[tactic(auto, unfolding(model::specs::Run::asserted, model::specs::Record::level_of))]
fn asserted(level: u8, signal: bool) -> bool
    ensures { result ≡ Run.asserted (level_of level) signal }
{
    (level == 1) == signal
}

// What a register shows: the reset value while an asynchronous reset is asserted, else the stored bit.
fn shown_bit(values: &[bool], stored: bool, cell: RegisterCell) -> bool
    ensures { result ≡ shown_bit values.now stored (cell_reset cell) }
{
    if cell.reset != 0
        && cell.reset_kind == 1
        && asserted(cell.reset, bit_at(values, usize::from(cell.reset_signal)))
    {
        cell.reset_value == 1
    } else {
        stored
    }
}

// What the register of a number shows, the number given plus one; false for 0, where there is no register.
#[tactic(auto, unfolding(crate::specs::RunTables::shown_by))]
fn shown_by(values: &[bool], stored: &[bool], driver: usize, cell: RegisterCell) -> bool
    ensures { result ≡ shown_by values.now stored.now driver cell }
{
    driver != 0 && shown_bit(values, bit_at(stored, driver - 1), cell)
}

// The value of a node by its kind byte, from what it reads; false for a byte that is no kind.
#[tactic(auto, using(crate::specs::RunLaws::xor_apart), unfolding(crate::specs::RunTables::value_of, model::specs::Kinds::by_kind))]
fn value_of(node: Node, input: bool, shown: bool, a: bool, b: bool, c: bool) -> bool
    ensures { result ≡ value_of node.kind node.detail input shown a b c }
{
    match node.kind {
        INPUT => input,
        CONSTANT => node.detail == 1,
        REGISTER_OUTPUT => shown,
        NOT => !a,
        OUTPUT => a,
        AND => a && b,
        OR => a || b,
        XOR => a != b,
        MUX => if a { b } else { c },
        _ => false,
    }
}

// The value of a node from the values of the nodes before it.
#[tactic(auto, unfolding(crate::specs::RunTables::node_by))]
fn node_value(values: &[bool], node: Node, input: bool, shown: bool) -> bool
    ensures { result ≡ node_by values.now node input shown }
{
    let a = bit_at(values, usize::from(node.first));
    let b = bit_at(values, usize::from(node.second));
    let c = bit_at(values, usize::from(node.third));
    value_of(node, input, shown, a, b, c)
}

// The bit of a rank in the row of the claim from `at` on.
fn input_bit(claim: &[u8], at: usize, rank: u16) -> bool
    requires { at ≤ 65536 }
    ensures { result ≡ claim_bit claim.now (at + rank) }
{
    claim_bit(claim, at + usize::from(rank))
}

// The values of all nodes in one cycle, and false past them. The row of the claim from `at` on has the input bits, by rank.
pub fn node_values(
    netlist: Netlist,
    ranks: [u16; 1024],
    drivers: [u16; 1024],
    claim: &[u8],
    at: usize,
    stored: [bool; 128],
) -> [bool; 1024]
    requires { (Sized netlist) × (at ≤ 65536) }
    ensures { (s : List ℕ) (ins : List Place) → Ranked s ins netlist ranks → Drivers netlist drivers
        → result ≡ padded 1024 (node_values (decoded s netlist) (row_inputs claim.now at ins) (take netlist.register_count stored)) }
{
    let mut values = [false; 1024];
    for i in 0..netlist.node_count {
        let input = input_bit(claim, at, ranks[i]);
        let driver = drivers[i];
        let cell = netlist.registers[register_of(driver)];
        let shown = shown_by(&values, &stored, usize::from(driver), cell);
        let value = node_value(&values, netlist.nodes[i], input, shown);
        values[i] = value;
    }
    values
}

// The data bit, or the stored bit where an enable exists and is not asserted.
fn enabled_bit(values: &[bool], stored: bool, next: bool, cell: RegisterCell) -> bool
    ensures { result ≡ enabled_bit values.now stored next (cell_enable cell) }
{
    if cell.enable == 0 || asserted(cell.enable, bit_at(values, usize::from(cell.enable_signal))) {
        next
    } else {
        stored
    }
}

// The reset value where a reset is asserted, else the bit given.
fn reset_bit(values: &[bool], bit: bool, cell: RegisterCell) -> bool
    ensures { result ≡ reset_bit values.now bit (cell_reset cell) }
{
    if cell.reset != 0 && asserted(cell.reset, bit_at(values, usize::from(cell.reset_signal))) {
        cell.reset_value == 1
    } else {
        bit
    }
}

// The next stored bit of a register: a reset that is asserted comes before the enable.
#[tactic(auto, unfolding(crate::specs::RunTables::next_of))]
fn next_bit(values: &[bool], stored: bool, cell: RegisterCell) -> bool
    ensures { result ≡ next_of values.now stored cell }
{
    let input = bit_at(values, usize::from(cell.data));
    let enabled = enabled_bit(values, stored, input, cell);
    reset_bit(values, enabled, cell)
}

// The two rows of stored bits of a side: the old one has the bits before a cycle, the new one is written in it.
#[derive(Clone, Copy)]
pub struct Rows {
    pub old: [bool; 128],
    pub new: [bool; 128],
}

// The next stored bits, from the old row, written into the new one; past the register count the new row stays.
pub fn next_stored(netlist: Netlist, values: &[bool], rows: Rows) -> Rows
    requires { Sized netlist }
    ensures { (result.old ≡ rows.old) × (drop netlist.register_count result.new ≡ drop netlist.register_count rows.new)
        × ((s : List ℕ) → take netlist.register_count result.new ≡ next_stored (decoded s netlist) values.now (take netlist.register_count rows.old)) }
{
    let old = rows.old;
    let mut new = rows.new;
    for k in 0..netlist.register_count {
        let bit = next_bit(values, old[k], netlist.registers[k]);
        new[k] = bit;
    }
    Rows { old, new }
}

// The two rows exchanged, as after each cycle: the bits that were written come next, the row before them is free for the bits after them.
pub fn exchange(rows: Rows) -> Rows
    ensures { (result.old ≡ rows.new) × (result.new ≡ rows.old) }
{
    let old = rows.new;
    let new = rows.old;
    Rows { old, new }
}

// The initial bit of a register: its reset value, or false where it has no reset.
pub fn initial_bit(cell: RegisterCell) -> bool
    ensures { result ≡ initial_bit (cell_reset cell) }
{
    cell.reset != 0 && cell.reset_value == 1
}

// A row with the bit of each of some elements, and false past them.
fn row_of<T, F: Fn(&T) -> bool>(items: &[T], bit: F) -> [bool; 128]
    requires room { length items.now ≤ 128 }
    requires callable { F.IsAlwaysCallable bit }
    ensures { (f : T → Bool) → ((x : T) (r : Bool) → FnReturnsAt F.Fn bit x r → r ≡ f x) → result ≡ padded 128 (map f items.now) }
{
    let mut row = [false; 128];
    for (k, item) in items.iter().enumerate() {
        row[k] = bit(item);
    }
    row
}

// The row of initial bits, and false past the register count.
pub fn initial_row(netlist: Netlist) -> [bool; 128]
    requires { Sized netlist }
    ensures { (s : List ℕ) → result ≡ padded 128 (initial_bits (decoded s netlist)) }
{
    row_of(
        &netlist.registers[..netlist.register_count],
        |cell| initial_bit(*cell),
    )
}

// The outputs of a cycle in byte order of names, and false past their count.
pub fn output_row(values: &[bool], outputs: Order) -> [bool; 128]
    requires { Formed outputs }
    ensures { (s : List ℕ) → result ≡ padded 128 (map (λ p. bit_at values.now p.number) (places s outputs)) }
{
    row_of(
        &outputs.entries[..outputs.count],
        |entry| bit_at(values, usize::from(entry.number)),
    )
}
