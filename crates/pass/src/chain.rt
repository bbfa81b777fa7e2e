// Sums and products: operands, joined by operators.
ghost use Rattle.std.specs.Prelude.{◌↔◌, IsTrue};
ghost use Rattle.pass.specs.Reads.{JoinsIn, GoesOn};

use lexer::Kind;
use recipe::Op;

// A sum joins products by + and -, a product joins atoms by * and div.
#[derive(Clone, Copy, PartialEq, Eq, Debug)]
pub(crate) enum Chain {
    Sum,
    Product,
}

impl Chain {
    // Whether an operator joins its operands.
    fn joins(self, op: Op) -> bool
        ensures { IsTrue result ↔ JoinsIn self op }
    {
        match self {
            Chain::Sum => matches!(op, Op::Plus | Op::Minus),
            Chain::Product => matches!(op, Op::Times | Op::Over),
        }
    }

    // The operator that a token goes on with it by.
    pub(crate) fn operator(self, kind: Kind) -> Option<Op>
        ensures { GoesOn self kind result }
    {
        match kind {
            Kind::Operator(op) if self.joins(op) => Some(op),
            _ => None,
        }
    }
}
