// The search of a graph handed over as words, for C: each call is exported under its name, with the parameters, the answer and the clause of the function of `solver`, and calls that.
#![tactic(auto)]

ghost use Rattle.std.specs.Prelude.{◌≡◌, length};
ghost use Rattle.model.specs.Validate.{read_record};
ghost use Rattle.solver.specs.Built.{size_read};
ghost use Rattle.solver.specs.Query.{answer, answered, size};

use solver::SolveAnswer;

// The graph of a list of nodes, two literals each, both 0 for a variable, and the search of it under assumptions and a limit of learned
// literals. The values of a model stand in VALUES. Nothing is asked of any argument. Left open: `words` beside the values of a model, `scores`, the
// nodes of an answer without a model, and of a refused call its nodes, its total and which status of 3 or more it has.
#[unsafe(no_mangle)]
pub extern "C" fn struo_solve(
    nodes: &[u32],
    assumptions: &[u32],
    limit: u64,
    words: &mut [u32],
    scores: &mut [f64],
) -> SolveAnswer
    ensures { answered result words.new ≡ answer limit nodes.now assumptions.now (length words.old) (length scores.old) }
{
    solver::struo_solve(nodes, assumptions, limit, words, scores)
}

// The nodes of the graph of a list, node 0 among them; 0 where the list is refused. For measuring what the graph costs of a search. Nothing is
// asked of any argument. Left open: `words`, of a refused call too.
#[unsafe(no_mangle)]
pub extern "C" fn struo_rebuild(nodes: &[u32], words: &mut [u32]) -> u32
    ensures { result ≡ size nodes.now (length words.old) }
{
    solver::struo_rebuild(nodes, words)
}

// The nodes of a record's transition graph, node 0 among them, built once and `again` times more; 0 where the record is refused or the
// words are too few. Nothing is asked of any argument. Left open: `words`, of a refused call too, and that the graph is built so often.
#[unsafe(no_mangle)]
pub extern "C" fn struo_build(record: &[u8], again: u32, words: &mut [u32]) -> u32
    ensures { result ≡ size_read (length words.old) (read_record «record».now) }
{
    solver::build::struo_build(record, again, words)
}
