// What a caller asks of a check beyond the two records, and how much memory it lends.
ghost use Rattle.std.specs.Prelude.{◌≡◌};
ghost use Rattle.model.specs.Options.{first_query};

// The largest limit of learned literals in one query.
pub const LIMIT: u64 = 262144;

// The maximum depth and the limit of learned literals in one query, each tested as it came; and whether cycle 0 alone is put first.
#[derive(Clone, Copy)]
pub struct Options {
    pub depth: u64,
    pub limit: u64,
    pub earliest: bool,
}

// The number of the first query of depth 1: query 0 in the mode of the earliest cycle, else query 1.
pub fn first_query(earliest: bool) -> u32
    ensures { result ≡ first_query earliest }
{
    if earliest { 0 } else { 1 }
}

// How many trace bytes, words and scores are lent.
#[derive(Clone, Copy)]
pub struct Lent {
    pub trace: usize,
    pub words: usize,
    pub scores: usize,
}
