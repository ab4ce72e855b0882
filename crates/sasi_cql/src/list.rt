// The lists of a statement: items with a word or a sign between them.
ghost use Rattle.std.specs.Prelude.{◌≡◌, ◌||◌, ◌++◌, ◌∷◌, [], Bool, false, IfOk, List};
ghost use Rattle.sasi_model.specs.Tokens.{tokens};
ghost use Rattle.sasi_model.specs.Forms.{Form, Many};
ghost use Rattle.sasi_model.specs.FormReader.{read};
ghost use Rattle.sasi_cql.specs.Finds.{Finds, FindsAs};
ghost use Rattle.sasi_cql.specs.ModelTokens.{model_token};

use crate::front::after;
use crate::halt::Halt;
use crate::token::Token;
use std::alloc::{AllocError, Global};

/// What a list is made of.
pub trait Item: Sized + Drop {
    /// The list, whose items take less memory than by themselves.
    type Packed: Drop;

    // How it is spelled, by whether an item that marks came before it.
    ghost form: { Bool → Form Self };

    // The items after it are read as marked: in a CREATE TABLE, those after a PRIMARY KEY.
    ghost marks: { Self → Bool };

    // The items of a list.
    ghost items: { Self.Packed → List Self };

    /// Reads the item that the text begins with.
    fn read<'a>(alloc: Global, marked: bool, text: &'a [u8]) -> Result<(Self, &'a [u8]), Halt>
        ensures { Finds (read (form marked) (tokens text.now)) result };

    /// Whether the items after it are read as marked.
    fn marks(&self) -> bool
        ensures { result ≡ marks self.now };

    /// The empty list.
    fn empty(alloc: Global) -> Self::Packed
        ensures { items result ≡ [] };

    /// The list with one more item at its end.
    fn add(list: Self::Packed, item: Self) -> Result<Self::Packed, AllocError>
        ensures { IfOk result (λ more. items more ≡ items list ++ item ∷ []) };
}

fn either(one: bool, other: bool) -> bool
    ensures { result ≡ (one || other) }
{
    one || other
}

/// Items with this token between them, and one at least.
pub fn read_list<'a, T: Item>(
    alloc: Global,
    between: &Token,
    text: &'a [u8],
) -> Result<(T::Packed, &'a [u8]), Halt>
    ensures { FindsAs T.items (read (Many (model_token between.now) T.marks T.form false) (tokens text.now)) result }
{
    let mut list = T::empty(alloc);
    let mut left = text;
    let mut marked = false;
    'items: loop {
        let (item, behind) = T::read(alloc, marked, left)?;
        let next = either(marked, item.marks());
        list = T::add(list, item)?;
        let Some(rest) = after(between, behind) else {
            return Ok((list, behind));
        };
        left = rest;
        marked = next;
    }
}
