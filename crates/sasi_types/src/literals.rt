// Lists of literals, in which NULL or a number of 32 bits takes eight bytes. A literal by itself takes 48.
ghost use Rattle.std.specs.Prelude.{◌≡◌, ◌++◌, ◌∷◌, [], None, IfOk, OnErr, OnOk, length};
ghost use Rattle.std.specs.Option.{option_to_list};
ghost use Rattle.sasi_types.specs.PackedLiterals.{other_of, text_of};
ghost use Rattle.sasi_types.specs.Packs.{Packs};
ghost use Rattle.sasi_types.specs.declared.literal.Literal.TheVariants.{Number as LiteralNumber};

use crate::packed_literal::PackedLiteral;
use crate::{Literal, Number, Text};
use std::alloc::{AllocError, Global};
use std::marker::Model;

/// A list of literals.
#[derive(Drop)]
pub struct Literals {
    items: Vec<PackedLiteral>,
    bytes: Vec<u8>,
    others: Vec<Literal>,
}

impl Model for Literals {
    ghost use Rattle.std.specs.Prelude.{◌≡◌, List, length};
    ghost use Rattle.sasi_types.specs.declared.literal.Literal.{Literal};
    ghost use Rattle.sasi_types.specs.PackedLiterals.{others_in, text_bytes, unpacked};

    ghost Value = { List Literal };

    ghost view = { λ a. unpacked a.items.items a.bytes.items a.others.items };

    ghost invariant = { λ a. (text_bytes a.items.items ≡ length a.bytes.items) × (others_in a.items.items ≡ length a.others.items) };
}

impl Literals {
    /// The empty list.
    pub fn new(alloc: Global) -> Literals
        ensures { result ≡ [] }
    {
        Literals {
            items: Vec::new(alloc),
            bytes: Vec::new(alloc),
            others: Vec::new(alloc),
        }
    }

    /// The number of literals.
    #[tactic(auto, using(crate::proofs::Packing::unpacked_length))]
    pub fn len(&self) -> usize
        ensures { result ≡ length self.now }
    {
        self.items.len()
    }

    /// Adds a literal at the end. A text of 2^32 bytes is out of memory.
    #[tactic(auto, using(crate::proofs::Packing::packed_more))]
    pub fn push(&mut self, literal: Literal) -> Result<(), AllocError>
        ensures ok { OnOk result (self.new ≡ self.old ++ literal ∷ []) }
        ensures err { OnErr result (self.new ≡ self.old) }
    {
        self.items.reserve(1)?;
        let item = pack(&mut self.bytes, &mut self.others, literal)?;
        self.items.push_reserved(item);
        Ok(())
    }

    /// The literals, each by itself.
    pub fn unpack(&self, alloc: Global) -> Result<Vec<Literal>, AllocError>
        ensures { IfOk result (λ literals. literals.items ≡ self.now) }
    {
        let mut literals = Vec::new(alloc);
        let mut left = self.read();
        'literals: while let Some(literal) = left.next(alloc)? {
            literals.push(literal)?;
        }
        Ok(literals)
    }

    // The literals, to be read from the first one on.
    pub(crate) fn read(&self) -> LiteralsLeft<'_>
        ensures { result ≡ self.now }
    {
        LiteralsLeft {
            items: &self.items,
            bytes: &self.bytes,
            others: &self.others,
        }
    }
}

// The item of a literal, whose text is added to the bytes. A literal that fits no item is added to the others.
fn pack(
    bytes: &mut Vec<u8>,
    others: &mut Vec<Literal>,
    literal: Literal,
) -> Result<PackedLiteral, AllocError>
    ensures packs { IfOk result (λ item. Packs item literal) }
    ensures bytes { OnOk result (bytes.new.items ≡ bytes.old.items ++ text_of literal) }
    ensures others { IfOk result (λ item. others.new.items ≡ others.old.items ++ other_of item literal) }
    ensures bytes_err { OnErr result (bytes.new.items ≡ bytes.old.items) }
    ensures others_err { OnErr result (others.new.items ≡ others.old.items) }
{
    match literal {
        Literal::Null => Ok(PackedLiteral::Null),
        Literal::Text(text) => {
            let Ok(size) = u32::try_from(text.bytes().len()) else {
                return Err(AllocError);
            };
            bytes.extend_from_slice(text.bytes())?;
            Ok(PackedLiteral::Text(size))
        }
        Literal::Number(number) => pack_number(others, number),
        Literal::Uuid(uuid) => {
            others.push(Literal::Uuid(uuid))?;
            Ok(PackedLiteral::Other)
        }
    }
}

fn pack_number(others: &mut Vec<Literal>, number: Number) -> Result<PackedLiteral, AllocError>
    ensures packs { IfOk result (λ item. Packs item (LiteralNumber number)) }
    ensures others { IfOk result (λ item. others.new.items ≡ others.old.items ++ other_of item (LiteralNumber number)) }
    ensures err { OnErr result (others.new.items ≡ others.old.items) }
{
    if let Number::Fits(wide) = number
        && let Ok(small) = i32::try_from(wide)
    {
        return Ok(PackedLiteral::Int(small));
    }
    others.push(Literal::Number(number))?;
    Ok(PackedLiteral::Other)
}

/// The literals that are left to be read.
#[derive(Drop)]
pub struct LiteralsLeft<'a> {
    items: &'a [PackedLiteral],
    bytes: &'a [u8],
    others: &'a [Literal],
}

impl<'a> Model for LiteralsLeft<'a> {
    ghost use Rattle.std.specs.Prelude.{◌≡◌, List, length};
    ghost use Rattle.sasi_types.specs.declared.literal.Literal.{Literal};
    ghost use Rattle.sasi_types.specs.PackedLiterals.{others_in, text_bytes, unpacked};

    ghost Value = { List Literal };

    ghost view = { λ a. unpacked a.items.now a.bytes.now a.others.now };

    ghost invariant = { λ a. (text_bytes a.items.now ≡ length a.bytes.now) × (others_in a.items.now ≡ length a.others.now) };
}

impl<'a> LiteralsLeft<'a> {
    /// The next literal. After out of memory it is still the next one.
    pub fn next(&mut self, alloc: Global) -> Result<Option<Literal>, AllocError>
        ensures items { IfOk result (λ found. self.old ≡ option_to_list found ++ self.new) }
        ensures end { IfOk result (λ found. found ≡ None → self.old ≡ []) }
        ensures err { OnErr result (self.new ≡ self.old) }
    {
        let Some((item, items)) = self.items.split_first() else {
            return Ok(None);
        };
        let literal = match item {
            PackedLiteral::Null => Literal::Null,
            PackedLiteral::Int(number) => Literal::Number(Number::Fits(i128::from(*number))),
            PackedLiteral::Text(size) => {
                let (text, bytes) = self.bytes.split_at(*size as usize);
                let text = Text::new(text.to_vec(alloc)?);
                self.bytes = bytes;
                Literal::Text(text)
            }
            PackedLiteral::Other => match self.others.split_first() {
                None => unreachable!(),
                Some((other, others)) => {
                    let other = other.copy(alloc)?;
                    self.others = others;
                    other
                }
            },
        };
        self.items = items;
        Ok(Some(literal))
    }
}
