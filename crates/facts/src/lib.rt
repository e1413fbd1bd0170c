// The facts stand in specs/; this function is here so that they are checked.
#![tactic(auto)]

pub fn echo(x: usize) -> usize {
    x
}
