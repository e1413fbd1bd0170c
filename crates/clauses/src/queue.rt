// The watch queues: a cell at the end of a queue.
ghost use Rattle.std.specs.Prelude.{◌≡◌, ◌≤◌, length};
ghost use Rattle.words.specs.Layout.{LENT};
ghost use Rattle.clauses.specs.Queue.{HasRoom, linked, pushed_words};

use words::{LINKS, WATCH_COUNTS, WATCH_HEADS, WATCH_TAILS, load, put};

// The head of an empty queue, or the link of the last cell, set to a cell.
#[tactic(auto, unfolding(crate::specs::Queue::linked))]
fn link(words: &mut [u32], l: usize, cell: u32)
    requires { (LENT ≤ length words.old) × HasRoom words.old l }
    ensures { (words.new ≡ linked words.old l cell) × (LENT ≤ length words.new) }
{
    if load(words, WATCH_COUNTS, l) == 0 {
        put(words, WATCH_HEADS, l, cell);
        return;
    }
    let tail = load(words, WATCH_TAILS, l) as usize;
    put(words, LINKS, tail, cell);
}

// A cell at the end of the queue of l, which has room for one more.
#[tactic(auto, unfolding(crate::specs::Queue::pushed_words))]
pub fn push_back(words: &mut [u32], l: usize, cell: u32)
    requires { (LENT ≤ length words.old) × HasRoom words.old l }
    ensures { (words.new ≡ pushed_words words.old l cell) × (LENT ≤ length words.new) }
{
    let count = load(words, WATCH_COUNTS, l);
    link(words, l, cell);
    put(words, WATCH_TAILS, l, cell);
    put(words, WATCH_COUNTS, l, count + 1);
}
