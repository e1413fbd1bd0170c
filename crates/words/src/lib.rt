// The lent words: the layout of their regions, and total accessors. Everything else reaches lent words through this crate.
//
// The 128 units of 65,536 words that are lent, and what is free among them (79 are used, the last of them in part, and 49 are free):
//
//     units      words                   regions
//     0 to 17    0 to 1179647            the 18 regions of 65,536 words, from GRAPH_LHS to LEARNED
//     18 to 23   1179648 to 1572863      free: 6 units
//     24 to 31   1572864 to 2097151      the 4 regions of 131,072 words, from AND_HEADS to WATCH_COUNTS
//     32 to 39   2097152 to 2621439      CLAUSE_STARTS
//     40 to 55   2621440 to 3670015      WATCHED
//     56 to 71   3670016 to 4718591      LINKS
//     72 to 83   4718592 to 5505023      LITERALS
//     84         5505024 to 5507071      the 2 regions of 1,024 words, NETS and STATES; the rest of the unit is free
//     85 to 127  5570560 to 8388607      free: 43 units
//
// In FRAMES the rows of cycles 0 to 64 take 33,280 words; the other 32,256 are free, and so are words 385 to 511 of each row.
// A new region needs a name here and in specs/Layout.antt; its size by its base is what `size_of` of specs/Region.antt says.
#![tactic(auto)]

ghost use Rattle.std.specs.Prelude.{◌≡◌, ◌+◌, ◌<◌, ◌≤◌, length, get_or, replicate, pos, false};
ghost use Rattle.std.specs.Float.{fin};
ghost use Rattle.words.specs.Layout.{LENT};
ghost use Rattle.words.specs.Region.{region, size_of, stored, cleared};

// How many words a check is lent at least: 128 units of 65,536.
pub const LENT: usize = 8388608;
// How many nodes a graph has at most, and how many variables and scores a search: a word each in a region of SMALL words.
pub const MOST_NODES: usize = 65536;
// How many literals a search learns at most: what the regions of the clauses have room for.
pub const MOST_LEARNED: usize = 262144;

// ---- regions of 65,536 words, one for each node, variable or trail place

pub const SMALL: usize = 65536;

// The proof graph: the two literals of each node; both 0 for node 0 and for a variable.
pub const GRAPH_LHS: usize = 0;

pub const GRAPH_RHS: usize = 65536;
// The node before it with the same larger literal; 0 at the end of a chain, since node 0 is no conjunction.
pub const AND_NEXT: usize = 131072;
// The transition graphs of gold and gate, laid out as the proof graph.
pub const GOLD_LHS: usize = 196608;

pub const GOLD_RHS: usize = 262144;

pub const GATE_LHS: usize = 327680;

pub const GATE_RHS: usize = 393216;
// The literal in the proof graph of each node of an imported graph.
pub const IMPORTED: usize = 458752;
// The literals of inputs, outputs and mismatches of each cycle: a row of ROW words for each, with the inputs at its beginning.
pub const FRAMES: usize = 524288;
// The search, by block of BLOCK variables: 0 where its best is unknown, else one more than the unassigned variable of the highest score, or 1 where none was
// unassigned. A word for each block; the rest of the region is free.
pub const BLOCKS: usize = 589824;

// How many variables a block has.
pub const BLOCK: usize = 64;
// The search, by variable: value, level, reason, phase and the stamp of the last conflict that saw it.
pub const VALUES: usize = 655360;

pub const LEVELS: usize = 720896;

pub const REASONS: usize = 786432;

pub const PHASES: usize = 851968;

pub const SEEN: usize = 917504;
// The trail, the places in it where each decision level begins, and the literals of a clause being learned.
pub const TRAIL: usize = 983040;

pub const LIMITS: usize = 1048576;

pub const LEARNED: usize = 1114112;

// ---- a row of FRAMES

// How many words a cycle has.
pub const ROW: usize = 512;
// Where gold's outputs, gate's outputs and the mismatch stand in a row.
pub const GOLD_OUTPUTS: usize = 128;

pub const GATE_OUTPUTS: usize = 256;

pub const MISMATCH: usize = 384;

// ---- regions of 131,072 words, one for each literal

pub const DOUBLE: usize = 131072;

// The newest node with this larger literal; 0 where there is none.
pub const AND_HEADS: usize = 1572864;
// The watch queue of each literal: its first and last cell, and how many it has.
pub const WATCH_HEADS: usize = 1703936;

pub const WATCH_TAILS: usize = 1835008;

pub const WATCH_COUNTS: usize = 1966080;

// ---- regions of the clauses

// Where the literals of a clause begin; those of the next clause begin where they end.
pub const CLAUSE_STARTS: usize = 2097152;

pub const STARTS: usize = 524288;
// The two watched literals of a clause, and the next cell of the queue that a slot is in; a cell is twice the clause plus the slot.
pub const WATCHED: usize = 2621440;

pub const LINKS: usize = 3670016;

pub const CELLS: usize = 1048576;
// The literals of all clauses, one clause after another.
pub const LITERALS: usize = 4718592;

pub const POOL: usize = 786432;

// ---- regions of 1,024 words, one for each net of a design

pub const TABLE: usize = 1024;

// The literal of each net.
pub const NETS: usize = 5505024;
// While a design is lowered, the variable of each register output by its net.
pub const STATES: usize = 5506048;

// A word of the region at `base`, of `size` words; 0 past its end.
#[tactic(auto, using(crate::specs::Region::read, crate::specs::Region::read_out))]
pub fn fetch(words: &[u32], base: usize, size: usize, i: usize) -> u32
    requires { (LENT ≤ length words.now) × (base + size ≤ LENT) × (size ≡ size_of base) }
    ensures { result ≡ get_or (region base words.now) i 0 }
{
    if i < size { words[base + i] } else { 0 }
}

// A store into the region at `base`, of `size` words; nothing past its end. The words stay long enough for the next call.
#[tactic(auto, unfolding(crate::specs::Region::stored))]
pub fn stash(words: &mut [u32], base: usize, size: usize, i: usize, value: u32)
    requires { (LENT ≤ length words.old) × (base + size ≤ LENT) × (size ≡ size_of base) }
    ensures { (words.new ≡ stored base words.old i value) × (LENT ≤ length words.new) }
{
    if i < size {
        words[base + i] = value;
    }
}

// A word of the region at `base`, whose place is within it.
#[tactic(auto, using(crate::specs::Region::read))]
pub fn load(words: &[u32], base: usize, i: usize) -> u32
    requires { (LENT ≤ length words.now) × (base + size_of base ≤ LENT) × (i < size_of base) }
    ensures { result ≡ get_or (region base words.now) i 0 }
{
    words[base + i]
}

// A store into the region at `base`, whose place is within it. The words stay long enough for the next call.
#[tactic(auto, unfolding(crate::specs::Region::stored))]
pub fn put(words: &mut [u32], base: usize, i: usize, value: u32)
    requires { (LENT ≤ length words.old) × (base + size_of base ≤ LENT) × (i < size_of base) }
    ensures { (words.new ≡ stored base words.old i value) × (LENT ≤ length words.new) }
{
    words[base + i] = value;
}

// Clears the first `n` words of the region at `base`, of `size` words; nothing past its end.
pub fn clear(words: &mut [u32], base: usize, size: usize, n: usize)
    requires { (LENT ≤ length words.old) × (base + size ≤ LENT) × (size ≡ size_of base) }
    ensures { (words.new ≡ cleared base words.old n) × (LENT ≤ length words.new) }
{
    words[base..base + n.min(size)].fill(0);
}

// Clears all words, whatever their number.
pub fn clear_words(words: &mut [u32])
    ensures { words.new ≡ replicate (length words.old) 0 }
{
    words.fill(0);
}

// Clears all scores, whatever their number.
pub fn clear_scores(scores: &mut [f64])
    ensures { scores.new ≡ replicate (length scores.old) (fin false 0 (pos 0)) }
{
    scores.fill(0.0);
}
