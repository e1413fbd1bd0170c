// The registers of a record, read into an array by value.
ghost use Rattle.std.specs.Prelude.{◌≡◌, ◌≤◌, [], ◌∷◌, length};
ghost use Rattle.fields.specs.Fields.{step_of};
ghost use Rattle.struo_ir.specs.Registers.{fixed, enabled, resettable, register_at, register_edge, register_enable, register_reset, reset_fields, RegistersRead};

use crate::netlist::RegisterCell;
use crate::nodes::read_inputs;
use fields::{Field, read_code_below, read_name, read_number};

// The registers of a record: how many, and zeros past them.
#[derive(Clone, Copy)]
pub struct Registers {
    pub count: u16,
    pub registers: [RegisterCell; 128],
}

// A register of its name, nets and edge, with no enable and no reset.
fn fixed_cell(name: u16, output: u16, data: u16, clock: u16, edge: u8) -> RegisterCell
    ensures { result ≡ fixed name (output ∷ «data» ∷ clock ∷ []) edge }
{
    RegisterCell {
        name,
        output,
        data,
        clock,
        edge,
        ..RegisterCell::NONE
    }
}

// The register with an enable.
fn with_enable(cell: RegisterCell, enable: u8, signal: u16) -> RegisterCell
    ensures { result ≡ enabled cell enable signal }
{
    RegisterCell {
        enable,
        enable_signal: signal,
        ..cell
    }
}

// The register with a reset.
fn with_reset(cell: RegisterCell, reset: u8, signal: u16, kind: u8, value: u8) -> RegisterCell
    ensures { result ≡ resettable cell reset signal kind value }
{
    RegisterCell {
        reset,
        reset_signal: signal,
        reset_kind: kind,
        reset_value: value,
        ..cell
    }
}

// The signal, kind and value of a reset, after its code.
fn read_reset_fields(bytes: &[u8], cell: RegisterCell, reset: u8, at: u32) -> Field<RegisterCell>
    requires { length bytes.now ≤ 65535 }
    ensures { step_of result ≡ reset_fields cell reset bytes.now at }
{
    let (signal, next) = read_number(bytes, at)?;
    let (kind, after) = read_code_below(bytes, 2, next)?;
    let (value, end) = read_code_below(bytes, 2, after)?;
    Ok((with_reset(cell, reset, signal, kind, value), end))
}

// The reset of a register.
fn read_reset(bytes: &[u8], cell: RegisterCell, at: u32) -> Field<RegisterCell>
    requires { length bytes.now ≤ 65535 }
    ensures { step_of result ≡ register_reset cell bytes.now at }
{
    let (reset, next) = read_code_below(bytes, 3, at)?;
    if reset == 0 {
        Ok((cell, next))
    } else {
        read_reset_fields(bytes, cell, reset, next)
    }
}

// The enable of a register, then its reset.
fn read_enable(bytes: &[u8], cell: RegisterCell, at: u32) -> Field<RegisterCell>
    requires { length bytes.now ≤ 65535 }
    ensures { step_of result ≡ register_enable cell bytes.now at }
{
    let (enable, next) = read_code_below(bytes, 3, at)?;
    if enable == 0 {
        return read_reset(bytes, cell, next);
    }
    let (signal, after) = read_number(bytes, next)?;
    read_reset(bytes, with_enable(cell, enable, signal), after)
}

// The edge of a register, then its enable and reset.
fn read_edge(
    bytes: &[u8],
    name: u16,
    output: u16,
    data: u16,
    clock: u16,
    at: u32,
) -> Field<RegisterCell>
    requires { length bytes.now ≤ 65535 }
    ensures { step_of result ≡ register_edge name (output ∷ «data» ∷ clock ∷ []) bytes.now at }
{
    let (edge, next) = read_code_below(bytes, 2, at)?;
    read_enable(bytes, fixed_cell(name, output, data, clock, edge), next)
}

// A register.
fn read_register(bytes: &[u8], at: u32) -> Field<RegisterCell>
    requires { length bytes.now ≤ 65535 }
    ensures { step_of result ≡ register_at bytes.now at }
{
    let (name, next) = read_name(bytes, at)?;
    let ([output, data, clock], after) = read_inputs(bytes, 3, next)?;
    read_edge(bytes, name, output, data, clock, after)
}

// The registers after their count.
pub fn read_registers(bytes: &[u8], count: u16, at: u32) -> Field<Registers>
    requires { (length bytes.now ≤ 65535) × (count ≤ 128) }
    ensures { RegistersRead bytes.now count at result }
{
    let mut registers = [RegisterCell::NONE; 128];
    let mut next = at;
    for i in 0..usize::from(count) {
        let (cell, end) = read_register(bytes, next)?;
        registers[i] = cell;
        next = end;
    }
    Ok((Registers { count, registers }, next))
}
