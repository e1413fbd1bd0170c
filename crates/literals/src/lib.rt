// A literal of the graph and of the search: its node by right shift, its inversion by the low bit, its negation by exclusive or with 1.
#![tactic(auto)]

ghost use Rattle.std.specs.Prelude.{◌≡◌, ◌*◌, ◌<◌};
ghost use Rattle.model.specs.Literal.{node, inverted, negate};

// A node with a sign: twice the node's number, plus one if inverted.
#[derive(Clone, Copy, Debug, PartialEq, Eq)]
pub struct Literal(pub u32);

impl Literal {
    // Node 0 is the constant false.
    pub const FALSE: Literal = Literal(0);
    // Node 0 inverted.
    pub const TRUE: Literal = Literal(1);

    // The literal of a node, not inverted.
    pub fn of(node: u32) -> Literal
        requires { node < 2147483648 }
        ensures { result.0 ≡ node * 2 }
    {
        Literal(node << 1)
    }

    // The number of its node.
    #[tactic(auto, unfolding(model::specs::Literal::node))]
    pub fn node(self) -> u32
        ensures { result ≡ node self.0 }
    {
        self.0 >> 1
    }

    // Whether it is inverted.
    #[tactic(auto, unfolding(model::specs::Literal::inverted))]
    pub fn inverted(self) -> bool
        ensures { result ≡ inverted self.0 }
    {
        self.0 & 1 == 1
    }

    // The same node with the other sign.
    #[tactic(auto, unfolding(model::specs::Literal::negate, model::specs::Literal::inverted))]
    pub fn negate(self) -> Literal
        ensures { result.0 ≡ negate self.0 }
    {
        Literal(self.0 ^ 1)
    }
}
