// The stored bits that a caller lends, a byte each: gold's by register number from byte 0 on, gate's from byte 128 on. They are checked, read and written.
ghost use Rattle.std.specs.Prelude.{◌≡◌, ◌+◌, ◌≤◌, length, take};
ghost use Rattle.model.specs.Stepping.{stored_bits, with_stored};
ghost use Rattle.calls.specs.Causes.{fault_of};
ghost use Rattle.stepping.specs.LentBits.{stored_bad, counted_fault, short_fault};

use calls::refusal::{Cause, Refusal};
use replay::claim::all_bits;
use run::run::claim_bit;

// The byte where gate's bits begin.
pub const GATE_BITS: usize = 128;

// How many bytes are lent at least.
pub const LENT_BITS: usize = 256;

// The stored bits of a side, from a byte on, in a row; false past them.
pub fn stored_row(bits: &[u8], at: usize, count: usize) -> [bool; 128]
    requires { (count ≤ 128) × (at + count ≤ length bits.now) }
    ensures { take count result ≡ stored_bits at count bits.now }
{
    let mut row = [false; 128];
    for k in 0..count {
        let bit = claim_bit(bits, at + k);
        row[k] = bit;
    }
    row
}

// The first bits of a row, written from a byte on; every other byte stays.
pub fn store_row(bits: &mut [u8], at: usize, count: usize, row: [bool; 128])
    requires { (count ≤ 128) × (at + count ≤ length bits.old) }
    ensures { bits.new ≡ with_stored at (take count row) bits.old }
{
    for k in 0..count {
        bits[at + k] = u8::from(row[k]);
    }
}

// A byte of the stored bits of a side is neither 0 nor 1.
fn stored_bad(bits: &[u8], at: usize, count: usize) -> bool
    requires { at + count ≤ length bits.now }
    ensures { result ≡ stored_bad at count bits.now }
{
    let end = at + count;
    !all_bits(&bits[at..end])
}

// 24: fewer than 256 bytes are lent.
pub fn short_fault(bits: &[u8]) -> Result<(), Refusal>
    ensures { fault_of result ≡ short_fault bits.now }
{
    if bits.len() < LENT_BITS {
        Err(Refusal::of_pair(Cause::Memory))
    } else {
        Ok(())
    }
}

// 24, then 25: a byte of a register's stored bit is neither 0 nor 1.
pub fn bits_fault(bits: &[u8], gold_count: usize, gate_count: usize) -> Result<(), Refusal>
    requires { (gold_count ≤ 128) × (gate_count ≤ 128) }
    ensures { fault_of result ≡ counted_fault gold_count gate_count bits.now }
{
    short_fault(bits)?;
    if stored_bad(bits, 0, gold_count) {
        return Err(Refusal::of_pair(Cause::Claim));
    }
    if stored_bad(bits, GATE_BITS, gate_count) {
        return Err(Refusal::of_pair(Cause::Claim));
    }
    Ok(())
}
