// The check of a claimed trace, refusal 25.
ghost use Rattle.std.specs.Prelude.{◌≡◌, ◌≤◌};
ghost use Rattle.model.specs.Pair.{all_bits};
ghost use Rattle.calls.specs.Causes.{fault_of};
ghost use Rattle.replay.specs.ClaimChecks.{claim_bad, claim_fault};

use calls::refusal::{Cause, Refusal};

// Every byte is 0 or 1.
pub fn all_bits(claim: &[u8]) -> bool
    ensures { result ≡ all_bits claim.now }
{
    for &byte in claim {
        if byte >= 2 {
            return false;
        }
    }
    true
}

// 25: the claimed cycle is over 64, or the claim has another length or another byte than 0 and 1. The cycle is tested before any product.
fn bad_claim(inputs: usize, outputs: usize, cycle: u64, claim: &[u8]) -> bool
    requires { (inputs ≤ 128) × (outputs ≤ 128) }
    ensures { result ≡ claim_bad inputs outputs cycle claim.now }
{
    if cycle > 64 {
        return true;
    }
    let rows = cycle as usize + 1;
    if claim.len() != rows * inputs + outputs {
        return true;
    }
    !all_bits(claim)
}

// 25.
pub fn claim_fault(inputs: usize, outputs: usize, cycle: u64, claim: &[u8]) -> Result<(), Refusal>
    requires { (inputs ≤ 128) × (outputs ≤ 128) }
    ensures { fault_of result ≡ claim_fault inputs outputs cycle claim.now }
{
    if bad_claim(inputs, outputs, cycle, claim) {
        Err(Refusal::of_pair(Cause::Claim))
    } else {
        Ok(())
    }
}
