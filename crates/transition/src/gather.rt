// Values and literals read in byte order of names, by the entries of an order.
ghost use Rattle.std.specs.Prelude.{◌≡◌, ◌≤◌, ◌<◌, ℕ, length, get_or};
ghost use Rattle.words.specs.Layout.{LENT, NETS};
ghost use Rattle.words.specs.Region.{region};
ghost use Rattle.model.specs.Literal.{node};
ghost use Rattle.model.specs.Transition.{net_literal};
ghost use Rattle.lowering.specs.Firsts.{Mapped};
ghost use Rattle.struo_ir.specs.Orders.{Formed};
ghost use Rattle.transition.specs.Gather.{Gathered, by_number};

use literals::Literal;
use lowering::nets::net_literal;
use struo_ir::design::{Entry, Order};

// What `read` gives of each item, at the item's place; 0 past the items.
pub(crate) fn of_each<T: Copy, F: Fn(T) -> u32>(items: &[T], read: F) -> [u32; 128]
    requires short { length items.now ≤ 128 }
    requires callable { F.IsAlwaysCallable read }
    ensures { (i : ℕ) (d : T) → i < length items.now → F.post read (get_or items.now i d) (get_or result i 0) }
{
    let mut values = [0u32; 128];
    for (i, item) in items.iter().enumerate() {
        values[i] = read(*item);
    }
    values
}

// The literals of the nets at the numbers of an order's entries.
pub fn port_literals(words: &[u32], order: Order) -> [u32; 128]
    requires { (LENT ≤ length words.now) × Formed order }
    ensures { Gathered (by_number (net_literal (region NETS words.now))) order.entries order.count result }
{
    let entries = &order.entries[..order.count];
    of_each(entries, |entry| net_literal(words, entry.number).0)
}

// The nodes of the first `count` literals.
pub fn nodes_of(literals: [u32; 128], count: usize) -> [u32; 128]
    requires { count ≤ 128 }
    ensures { Mapped node count literals result }
{
    of_each(&literals[..count], |literal| Literal(literal).node())
}

// The value at the number of an entry; 0 past the end.
#[tactic(auto, unfolding(model::specs::Transition::net_literal))]
fn value_at(values: &[u32; 128], entry: Entry) -> u32
    ensures { result ≡ net_literal values.now entry.number }
{
    values.get(usize::from(entry.number)).copied().unwrap_or(0)
}

// The values at the numbers of an order's entries.
pub fn gather(order: Order, values: [u32; 128]) -> [u32; 128]
    requires { Formed order }
    ensures { Gathered (by_number (net_literal values)) order.entries order.count result }
{
    let entries = &order.entries[..order.count];
    of_each(entries, |entry| value_at(&values, entry))
}
