// The fields of a record, each read at an offset. A refusal has its cause and the offset of its field.
#![tactic(auto)]

pub mod kinds;

ghost use Rattle.std.specs.Prelude.{◌≡◌, ◌≤◌, length};
ghost use Rattle.std.specs.List.{list_all};
ghost use Rattle.model.specs.Record as Record;
ghost use Rattle.fields.specs.Fields.{step_of, placed, room_for, kind_at};

use crate::kinds::{INPUT, LISTED, OUTPUT};
use calls::refusal::{Cause, Refusal};

// What is read of a field, with the offset of the next one; or a refusal.
pub type Field<T> = Result<(T, u32), Refusal>;

// How many inputs a node of a listed kind has: the high four bits of its byte.
pub fn inputs_per_kind(kind: u8) -> u8
    ensures { result ≡ Record.inputs_per_kind kind }
{
    kind / 16
}

// The test of listed kinds.
fn is_listed(kind: u8) -> bool
    ensures { result ≡ Record.listed_kind kind }
{
    LISTED.contains(&kind)
}

// Whether one more node of this kind keeps the Inputs and the Outputs at 64 or fewer.
fn has_room(kind: u8, inputs: u32, outputs: u32) -> bool
    ensures { result ≡ room_for inputs outputs kind }
{
    if kind == INPUT {
        inputs < 64
    } else if kind == OUTPUT {
        outputs < 64
    } else {
        true
    }
}

// A field of one byte.
pub fn read_byte(bytes: &[u8], at: u32) -> Field<u8>
    requires { length bytes.now ≤ 65535 }
    ensures { step_of result ≡ Record.byte bytes.now at }
{
    let i = at as usize;
    if i < bytes.len() {
        Ok((bytes[i], at + 1))
    } else {
        Err(Refusal::at(Cause::Cut, at))
    }
}

// A 2-byte number.
pub fn read_number(bytes: &[u8], at: u32) -> Field<u16>
    requires { length bytes.now ≤ 65535 }
    ensures { step_of result ≡ Record.number bytes.now at }
{
    let i = at as usize;
    if i + 1 < bytes.len() {
        Ok((u16::from_be_bytes([bytes[i], bytes[i + 1]]), at + 2))
    } else {
        Err(Refusal::at(Cause::Cut, at))
    }
}

// A byte with the listed values 0 to n - 1.
pub fn read_code_below(bytes: &[u8], n: u8, at: u32) -> Field<u8>
    requires { length bytes.now ≤ 65535 }
    ensures { step_of result ≡ Record.code_below n bytes.now at }
{
    let (code, next) = read_byte(bytes, at)?;
    if code < n {
        Ok((code, next))
    } else {
        Err(Refusal::at(Cause::Code, at))
    }
}

// The kind byte of a node, after so many Inputs and Outputs.
pub fn read_kind(bytes: &[u8], inputs: u32, outputs: u32, at: u32) -> Field<u8>
    requires { length bytes.now ≤ 65535 }
    ensures { step_of result ≡ kind_at inputs outputs bytes.now at }
{
    let (kind, next) = read_byte(bytes, at)?;
    if !is_listed(kind) {
        return Err(Refusal::at(Cause::Code, at));
    }
    if !has_room(kind, inputs, outputs) {
        return Err(Refusal::at(Cause::Count, at));
    }
    Ok((kind, next))
}

// A byte that a name can have.
fn name_byte(byte: u8) -> bool
    ensures { result ≡ Record.name_byte byte }
{
    33 <= byte && byte <= 126
}

// Every byte is one that a name can have.
fn name_bytes(name: &[u8]) -> bool
    ensures { result ≡ list_all Record.name_byte name.now }
{
    name.iter().all(|&byte| name_byte(byte))
}

// A name: the place of its length byte, which is from 1 to 32, and the offset past its bytes.
pub fn read_name(bytes: &[u8], at: u32) -> Field<u16>
    requires { length bytes.now ≤ 65535 }
    ensures { step_of result ≡ placed at (Record.name bytes.now at) }
{
    let (count, first) = read_byte(bytes, at)?;
    if count < 1 || 32 < count {
        return Err(Refusal::at(Cause::Name, at));
    }
    let end = first + u32::from(count);
    if bytes.len() < end as usize {
        return Err(Refusal::at(Cause::Cut, first));
    }
    if name_bytes(&bytes[first as usize..end as usize]) {
        Ok((at as u16, end))
    } else {
        Err(Refusal::at(Cause::Name, first))
    }
}
