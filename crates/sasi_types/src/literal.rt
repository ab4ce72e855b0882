// The values that a statement writes out.
ghost use Rattle.std.specs.Prelude.{◌≡◌, IfOk};

use crate::Text;
use std::alloc::{AllocError, Global};

/// An integer that a statement writes out.
#[derive(Clone, Copy, Debug, PartialEq, Eq)]
pub enum Number {
    /// It has 128 bits.
    Fits(i128),
    /// It has more: it is outside every range.
    Wide,
}

/// A value that a statement writes out.
#[derive(Drop)]
pub enum Literal {
    Text(Text),
    Number(Number),
    Uuid([u8; 16]),
    Null,
}

impl Literal {
    /// A copy of the literal.
    pub fn copy(&self, alloc: Global) -> Result<Literal, AllocError>
        ensures { IfOk result (λ copy. copy ≡ self.now) }
    {
        match self {
            Literal::Text(text) => Ok(Literal::Text(text.copy(alloc)?)),
            Literal::Number(number) => Ok(Literal::Number(*number)),
            Literal::Uuid(bytes) => Ok(Literal::Uuid(*bytes)),
            Literal::Null => Ok(Literal::Null),
        }
    }
}
