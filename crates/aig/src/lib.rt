// The and-inverter graph in lent words: aig.rs with its nodes in GRAPH_LHS and GRAPH_RHS, and the lookup of an earlier pair by chains.
#![tactic(auto)]

ghost use Rattle.std.specs.Prelude.{◌≡◌, map, ◌+◌, ◌*◌, ◌≤◌, ◌<◌, length, take, IfSome};
ghost use Rattle.words.specs.Layout.{LENT, MOST-NODES, VALUES};
ghost use Rattle.words.specs.Region.{region};
ghost use Rattle.model.specs.Lists.{position};
ghost use Rattle.model.specs.Aig.{is_and, new, variable, and_found, and_shortcut, and, or, xor_shortcut, xor, mux_shortcut, mux, evaluate};
ghost use Rattle.std.proofs.Math.Option.{none};
ghost use Rattle.aig.specs.Shortcut.{shortcut_of, found_of};
ghost use Rattle.aig.specs.Graph.{graph_of, Ascending};
ghost use Rattle.aig.specs.Index.{place};
ghost use Rattle.aig.specs.Operations.{or_of_ands, is_true};
ghost use Rattle.aig.specs.Made.{Ready, Same, Made, outside, opened, pushed_leaf};

use literals::Literal;
use words::{AND_HEADS, AND_NEXT, DOUBLE, GRAPH_LHS, GRAPH_RHS, SMALL, VALUES, fetch, stash};

// The graph: how many nodes it has, node 0 among them; the nodes lie in the words.
#[derive(Clone, Copy)]
pub struct Aig {
    pub count: u32,
}

// A graph and a literal of it: what each operation returns.
#[derive(Clone, Copy)]
pub struct Built {
    pub aig: Aig,
    pub literal: Literal,
}

// Empties the chains of a node's two literals, which no node has yet.
fn open_chains(words: &mut [u32], node: u32)
    requires { LENT ≤ length words.old }
    ensures { (words.new ≡ opened words.old node) × (LENT ≤ length words.new) }
{
    let literal = node as usize * 2;
    stash(words, AND_HEADS, DOUBLE, literal, 0);
    stash(words, AND_HEADS, DOUBLE, literal + 1, 0);
}

// Writes a node without operands: the constant or a variable.
fn write_leaf(words: &mut [u32], node: u32)
    requires { LENT ≤ length words.old }
    ensures { words.new ≡ pushed_leaf words.old node }
{
    open_chains(words, node);
    let at = node as usize;
    stash(words, GRAPH_LHS, SMALL, at, 0);
    stash(words, GRAPH_RHS, SMALL, at, 0);
}

impl Aig {
    // The graph with node 0 alone, whatever graph stood there before: its words stay and are not read.
    pub fn new(words: &mut [u32]) -> Aig
        requires { LENT ≤ length words.old }
        ensures { (result.count ≡ 1) × (graph_of 1 words.new ≡ new) × Ready 1 words.new × Same outside words.old words.new }
    {
        write_leaf(words, 0);
        Aig { count: 1 }
    }

    // A new variable, named by its place.
    pub fn variable(self, words: &mut [u32]) -> Built
        requires { Ready self.count words.old × (self.count + 1 ≤ MOST-NODES) }
        ensures { Made 1 self.count words.old result.aig.count words.new result.literal.0 (variable (graph_of self.count words.old)) }
    {
        let count = self.count;
        write_leaf(words, count);
        Built {
            aig: Aig { count: count + 1 },
            literal: Literal::of(count),
        }
    }

    // The node of an earlier pair, by the chain of its larger literal.
    fn earlier(self, words: &[u32], lhs: u32, rhs: u32) -> Option<u32>
        requires { Ready self.count words.now × (0 < rhs) × (rhs < self.count * 2) }
        ensures found { found_of result ≡ position (is_and lhs rhs) (graph_of self.count words.now) }
        ensures below { IfSome result (λ at. (0 < at) × (at < self.count)) }
    {
        let mut at = fetch(words, AND_HEADS, DOUBLE, rhs as usize);
        while at != 0 {
            if fetch(words, GRAPH_LHS, SMALL, at as usize) == lhs {
                return Some(at);
            }
            at = fetch(words, AND_NEXT, SMALL, at as usize);
        }
        None
    }

    // A new conjunction, which did not stand in the graph: it heads the chain of its larger literal.
    fn push(self, words: &mut [u32], lhs: Literal, rhs: Literal) -> Built
        requires { Ready self.count words.old × (self.count + 1 ≤ MOST-NODES) × Ascending lhs.0 rhs.0 × (lhs.0 < self.count * 2) × (rhs.0 < self.count * 2) × (place 0 ≡ position (is_and lhs.0 rhs.0) (graph_of self.count words.old)) }
        ensures { Made 1 self.count words.old result.aig.count words.new result.literal.0 (and_found (graph_of self.count words.old) lhs.0 rhs.0 none) }
    {
        let count = self.count;
        open_chains(words, count);
        let at = count as usize;
        stash(words, GRAPH_LHS, SMALL, at, lhs.0);
        stash(words, GRAPH_RHS, SMALL, at, rhs.0);
        let chain = rhs.0 as usize;
        let head = fetch(words, AND_HEADS, DOUBLE, chain);
        stash(words, AND_NEXT, SMALL, at, head);
        stash(words, AND_HEADS, DOUBLE, chain, count);
        Built {
            aig: Aig { count: count + 1 },
            literal: Literal::of(count),
        }
    }

    // The conjunction of an ordered pair: its earlier node, or a new one.
    fn pair(self, words: &mut [u32], lhs: Literal, rhs: Literal) -> Built
        requires { Ready self.count words.old × (self.count + 1 ≤ MOST-NODES) × Ascending lhs.0 rhs.0 × (lhs.0 < self.count * 2) × (rhs.0 < self.count * 2) }
        ensures { Made 1 self.count words.old result.aig.count words.new result.literal.0 (and_found (graph_of self.count words.old) lhs.0 rhs.0 (position (is_and lhs.0 rhs.0) (graph_of self.count words.old))) }
    {
        match self.earlier(words, lhs.0, rhs.0) {
            Some(at) => Built {
                aig: self,
                literal: Literal::of(at),
            },
            None => self.push(words, lhs, rhs),
        }
    }

    // The conjunction: aig.rs's shortcuts in their order, else the node of the ordered pair.
    pub fn and(self, words: &mut [u32], lhs: Literal, rhs: Literal) -> Built
        requires { Ready self.count words.old × (self.count + 1 ≤ MOST-NODES) × (lhs.0 < self.count * 2) × (rhs.0 < self.count * 2) }
        ensures { Made 1 self.count words.old result.aig.count words.new result.literal.0 (and (graph_of self.count words.old) lhs.0 rhs.0) }
    {
        match and_shortcut(lhs, rhs) {
            Some(literal) => Built { aig: self, literal },
            None => {
                if lhs.0 <= rhs.0 {
                    self.pair(words, lhs, rhs)
                } else {
                    self.pair(words, rhs, lhs)
                }
            }
        }
    }

    // The disjunction.
    pub fn or(self, words: &mut [u32], lhs: Literal, rhs: Literal) -> Built
        requires { Ready self.count words.old × (self.count + 1 ≤ MOST-NODES) × (lhs.0 < self.count * 2) × (rhs.0 < self.count * 2) }
        ensures { Made 1 self.count words.old result.aig.count words.new result.literal.0 (or (graph_of self.count words.old) lhs.0 rhs.0) }
    {
        let Built { aig, literal } = self.and(words, lhs.negate(), rhs.negate());
        Built {
            aig,
            literal: literal.negate(),
        }
    }

    // (a and b) or (c and d), as `xor` and `mux` build it.
    fn or_of_ands(self, words: &mut [u32], a: Literal, b: Literal, c: Literal, d: Literal) -> Built
        requires { Ready self.count words.old × (self.count + 3 ≤ MOST-NODES) × (a.0 < self.count * 2) × (b.0 < self.count * 2) × (c.0 < self.count * 2) × (d.0 < self.count * 2) }
        ensures { Made 3 self.count words.old result.aig.count words.new result.literal.0 (or_of_ands (graph_of self.count words.old) a.0 b.0 c.0 d.0) }
    {
        let first = self.and(words, a, b);
        let second = first.aig.and(words, c, d);
        second.aig.or(words, first.literal, second.literal)
    }

    // The exclusive or: its shortcuts, else lhs_only or rhs_only.
    pub fn xor(self, words: &mut [u32], lhs: Literal, rhs: Literal) -> Built
        requires { Ready self.count words.old × (self.count + 3 ≤ MOST-NODES) × (lhs.0 < self.count * 2) × (rhs.0 < self.count * 2) }
        ensures { Made 3 self.count words.old result.aig.count words.new result.literal.0 (xor (graph_of self.count words.old) lhs.0 rhs.0) }
    {
        match xor_shortcut(lhs, rhs) {
            Some(literal) => Built { aig: self, literal },
            None => self.or_of_ands(words, lhs, rhs.negate(), lhs.negate(), rhs),
        }
    }

    // The choice between two values: its shortcuts, else selected_then or selected_else.
    pub fn mux(
        self,
        words: &mut [u32],
        condition: Literal,
        then_value: Literal,
        else_value: Literal,
    ) -> Built
        requires { Ready self.count words.old × (self.count + 3 ≤ MOST-NODES) × (condition.0 < self.count * 2) × (then_value.0 < self.count * 2) × (else_value.0 < self.count * 2) }
        ensures { Made 3 self.count words.old result.aig.count words.new result.literal.0 (mux (graph_of self.count words.old) condition.0 then_value.0 else_value.0) }
    {
        match mux_shortcut(condition, then_value, else_value) {
            Some(literal) => Built { aig: self, literal },
            None => self.or_of_ands(words, condition, then_value, condition.negate(), else_value),
        }
    }

    // The value of a literal by the first `nodes` words of VALUES, each a node's value: an odd one is true.
    pub fn evaluate(literal: Literal, words: &[u32], nodes: usize) -> bool
        requires { LENT ≤ length words.now }
        ensures { result ≡ evaluate (map is_true (take nodes (region VALUES words.now))) literal.0 }
    {
        let node = literal.node() as usize;
        let value = node < nodes && fetch(words, VALUES, SMALL, node) % 2 == 1;
        value ^ literal.inverted()
    }
}

// What `and` answers without a node: its tests, in aig.rs's order.
#[tactic(auto, unfolding(model::specs::Aig::and_shortcut, crate::specs::Shortcut::shortcut_of))]
fn and_shortcut(lhs: Literal, rhs: Literal) -> Option<Literal>
    ensures { shortcut_of result ≡ and_shortcut lhs.0 rhs.0 }
{
    if lhs == Literal::FALSE || rhs == Literal::FALSE {
        Some(Literal::FALSE)
    } else if lhs == Literal::TRUE {
        Some(rhs)
    } else if rhs == Literal::TRUE || lhs == rhs {
        Some(lhs)
    } else if lhs == rhs.negate() {
        Some(Literal::FALSE)
    } else {
        None
    }
}

// What `xor` answers without a node.
#[tactic(auto, unfolding(model::specs::Aig::xor_shortcut, crate::specs::Shortcut::shortcut_of))]
fn xor_shortcut(lhs: Literal, rhs: Literal) -> Option<Literal>
    ensures { shortcut_of result ≡ xor_shortcut lhs.0 rhs.0 }
{
    if lhs == rhs {
        Some(Literal::FALSE)
    } else if lhs == rhs.negate() {
        Some(Literal::TRUE)
    } else {
        None
    }
}

// What `mux` answers without a node: its tests, in aig.rs's order.
#[tactic(auto, unfolding(model::specs::Aig::mux_shortcut, crate::specs::Shortcut::shortcut_of))]
fn mux_shortcut(condition: Literal, then_value: Literal, else_value: Literal) -> Option<Literal>
    ensures { shortcut_of result ≡ mux_shortcut condition.0 then_value.0 else_value.0 }
{
    if condition == Literal::TRUE {
        Some(then_value)
    } else if condition == Literal::FALSE {
        Some(else_value)
    } else if then_value == else_value {
        Some(then_value)
    } else if then_value == Literal::TRUE && else_value == Literal::FALSE {
        Some(condition)
    } else if then_value == Literal::FALSE && else_value == Literal::TRUE {
        Some(condition.negate())
    } else {
        None
    }
}
