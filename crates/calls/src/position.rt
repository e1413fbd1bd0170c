// The replay position that a caller lends, as C has it.

// The next cycle, and whether the outputs agreed in every cycle before it; the stored bits are lent beside it.
#[repr(C)]
#[derive(Clone, Copy)]
pub struct ReplayPosition {
    pub cycle: u64,
    pub agreed: bool,
}
