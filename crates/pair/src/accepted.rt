// An accepted record with its design, and two of them.
ghost use Rattle.struo_ir.specs.Designs.{Sided};
ghost use Rattle.pair.specs.SidedProp.{Sided-prop};

use struo_ir::design::Design;

// An accepted record: its bytes, in which the names stand, and the design that they say.
#[derive(Clone, Copy)]
pub struct Accepted<'a> {
    pub bytes: &'a [u8],
    pub design: Design,
    pub ghost sided: { Sided bytes.now design } by { Sided-prop bytes.now design },
}

// Two accepted records.
#[derive(Clone, Copy)]
pub struct Pair<'a> {
    pub gold: Accepted<'a>,
    pub gate: Accepted<'a>,
}
