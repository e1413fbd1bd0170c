// The search of a graph handed over as words: for tests and measurements beside another solver, not a part of the public library.
#![tactic(auto)]

pub mod build;

ghost use Rattle.std.specs.Prelude.{◌≡◌, ◌*◌, ◌≤◌, length};
ghost use Rattle.words.specs.Layout.{LENT};
ghost use Rattle.solver.specs.Query.{Extendable, Extends, Rebuilding, Searchable, Numbered, within, all_below, searched, answer, answered, size};
ghost use Rattle.std.proofs.Math.Option.{some};
ghost use Rattle.aig.specs.Graph.{graph_of};

use aig::Aig;
use literals::Literal;
use sat::solve::solve;
use sat::state::Answer;
use words::{LENT, MOST_LEARNED, MOST_NODES};

// The largest limit of learned literals.
const LIMIT: u64 = MOST_LEARNED as u64;

// What a search answers: status 0 with a model, whose values stand in the words, 1 with none, 2 where it gave up, 3 where the call is
// refused; the nodes of the graph, and the total of learned literals.
#[repr(C)]
#[derive(Clone, Copy)]
pub struct SolveAnswer {
    pub status: u32,
    pub nodes: u32,
    pub total: u64,
}

// One node more: a variable for two zeros, else the conjunction of the two literals.
fn with_node(aig: Aig, words: &mut [u32], lhs: u32, rhs: u32) -> Aig
    requires { Extendable aig.count words.old lhs rhs }
    ensures { Extends aig.count words.old lhs rhs result.count words.new }
{
    if lhs == 0 && rhs == 0 {
        let made = aig.variable(words);
        return made.aig;
    }
    let made = aig.and(words, Literal(lhs), Literal(rhs));
    made.aig
}

// The graph of the first `count` pairs of literals; none where a literal is of no earlier node.
fn rebuild(words: &mut [u32], nodes: &[u32], count: usize) -> Option<Aig>
    requires { (LENT ≤ length words.old) × (count * 2 ≤ length nodes.now) × (count ≤ 65535) }
    ensures { Rebuilding count nodes.now result words.new }
{
    let mut aig = Aig::new(words);
    for i in 0..count {
        let lhs = nodes[i * 2];
        let rhs = nodes[i * 2 + 1];
        let bound = aig.count * 2;
        if lhs >= bound {
            return None;
        }
        if rhs >= bound {
            return None;
        }
        aig = with_node(aig, words, lhs, rhs);
    }
    Some(aig)
}

// Whether the list of nodes is even, and the lengths and the limit are within what the search takes.
fn fits(nodes: usize, assumptions: usize, limit: u64, words: usize, scores: usize) -> bool
    ensures { result ≡ within nodes assumptions limit words scores }
{
    if nodes % 2 != 0 {
        return false;
    }
    if nodes > 131070 {
        return false;
    }
    if assumptions > 65535 {
        return false;
    }
    if limit > LIMIT {
        return false;
    }
    if words < LENT {
        return false;
    }
    if scores < MOST_NODES {
        return false;
    }
    true
}

// Whether every literal is below `bound`.
fn all_below(bound: u32, literals: &[u32]) -> bool
    ensures { result ≡ all_below bound literals.now }
{
    for &literal in literals {
        if literal >= bound {
            return false;
        }
    }
    true
}

// The numbers of a search's answer.
fn numbers(answer: Answer, nodes: u32) -> SolveAnswer
    ensures { Numbered answer nodes result }
{
    match answer {
        Answer::Model(total) => SolveAnswer {
            status: 0,
            nodes,
            total: total as u64,
        },
        Answer::NoModel(total) => SolveAnswer {
            status: 1,
            nodes,
            total: total as u64,
        },
        Answer::GaveUp(total) => SolveAnswer {
            status: 2,
            nodes,
            total: total as u64,
        },
    }
}

// The numbers of a refused call.
fn refused() -> SolveAnswer
    ensures { result.status ≡ 3 }
{
    SolveAnswer {
        status: 3,
        nodes: 0,
        total: 0,
    }
}

// The search of the graph that stands in the words, refused where an assumption is no literal of it.
fn search_graph(
    words: &mut [u32],
    scores: &mut [f64],
    assumptions: &[u32],
    aig: Aig,
    limit: usize,
) -> SolveAnswer
    requires { Searchable limit aig.count words.old scores.old assumptions.now }
    ensures { answered result words.new ≡ searched limit assumptions.now (some (graph_of aig.count words.old)) }
{
    let count = aig.count;
    if !all_below(count * 2, assumptions) {
        return refused();
    }
    let listed = assumptions.len();
    let answer = solve(words, scores, assumptions, listed, count as usize, limit);
    numbers(answer, count)
}

// The graph of a list of nodes, two literals each, both 0 for a variable, and the search of it under assumptions and a limit of learned
// literals. The values of a model stand in VALUES. Nothing is asked of any argument. Left open: `words` beside the values of a model, `scores`, the
// nodes of an answer without a model, and of a refused call its nodes, its total and which status of 3 or more it has.
pub fn struo_solve(
    nodes: &[u32],
    assumptions: &[u32],
    limit: u64,
    words: &mut [u32],
    scores: &mut [f64],
) -> SolveAnswer
    ensures { answered result words.new ≡ answer limit nodes.now assumptions.now (length words.old) (length scores.old) }
{
    if !fits(
        nodes.len(),
        assumptions.len(),
        limit,
        words.len(),
        scores.len(),
    ) {
        return refused();
    }
    let pairs = nodes.len() / 2;
    match rebuild(words, nodes, pairs) {
        None => refused(),
        Some(aig) => search_graph(words, scores, assumptions, aig, limit as usize),
    }
}

// The nodes of the graph of a list, node 0 among them; 0 where the list is refused. For measuring what the graph costs of a search. Nothing is
// asked of any argument. Left open: `words`, of a refused call too.
pub fn struo_rebuild(nodes: &[u32], words: &mut [u32]) -> u32
    ensures { result ≡ size nodes.now (length words.old) }
{
    if !fits(nodes.len(), 0, 0, words.len(), MOST_NODES) {
        return 0;
    }
    match rebuild(words, nodes, nodes.len() / 2) {
        None => 0,
        Some(aig) => aig.count,
    }
}
