// What the lists of statements are made of.
ghost use Rattle.std.specs.Prelude.{false};
ghost use Rattle.sasi_model.specs.Statements.{equation, literal, name, option, relation};

use crate::front::{after, followed, read_literal, read_name, read_string, read_test};
use crate::halt::Halt;
use crate::list::Item;
use crate::part::read_equation;
use crate::token::Token;
use sasi_types::{Literal, Literals, Name, Names, Options, Relation, Relations, Sets, Test, Text};
use std::alloc::{AllocError, Global};

impl Item for Name {
    type Packed = Names;

    ghost form = { λ _. name };

    ghost marks = { λ _. false };

    ghost items = { λ list. list };

    fn read<'a>(alloc: Global, _marked: bool, text: &'a [u8]) -> Result<(Name, &'a [u8]), Halt> {
        read_name(alloc, text)
    }

    fn marks(&self) -> bool {
        false
    }

    fn empty(alloc: Global) -> Names {
        Names::new(alloc)
    }

    fn add(list: Names, item: Name) -> Result<Names, AllocError> {
        let mut list = list;
        list.push(&item)?;
        Ok(list)
    }
}

impl Item for Literal {
    type Packed = Literals;

    ghost form = { λ _. literal };

    ghost marks = { λ _. false };

    ghost items = { λ list. list };

    fn read<'a>(alloc: Global, _marked: bool, text: &'a [u8]) -> Result<(Literal, &'a [u8]), Halt> {
        read_literal(alloc, text)
    }

    fn marks(&self) -> bool {
        false
    }

    fn empty(alloc: Global) -> Literals {
        Literals::new(alloc)
    }

    fn add(list: Literals, item: Literal) -> Result<Literals, AllocError> {
        let mut list = list;
        list.push(item)?;
        Ok(list)
    }
}

impl Item for (Text, Text) {
    type Packed = Options;

    ghost form = { λ _. option };

    ghost marks = { λ _. false };

    ghost items = { λ list. list };

    fn read<'a>(
        alloc: Global,
        _marked: bool,
        text: &'a [u8],
    ) -> Result<((Text, Text), &'a [u8]), Halt> {
        let (option, behind) = read_string(alloc, text)?;
        let (option, behind) = followed(option, &[Token::Colon], behind)?;
        let (value, behind) = read_string(alloc, behind)?;
        Ok(((option, value), behind))
    }

    fn marks(&self) -> bool {
        false
    }

    fn empty(alloc: Global) -> Options {
        Options::new(alloc)
    }

    fn add(list: Options, item: (Text, Text)) -> Result<Options, AllocError> {
        list.with(&item.0, &item.1)
    }
}

impl Item for (Name, Literal) {
    type Packed = Sets;

    ghost form = { λ _. equation };

    ghost marks = { λ _. false };

    ghost items = { λ list. list };

    fn read<'a>(
        alloc: Global,
        _marked: bool,
        text: &'a [u8],
    ) -> Result<((Name, Literal), &'a [u8]), Halt> {
        read_equation(alloc, text)
    }

    fn marks(&self) -> bool {
        false
    }

    fn empty(alloc: Global) -> Sets {
        Sets::new(alloc)
    }

    fn add(list: Sets, item: (Name, Literal)) -> Result<Sets, AllocError> {
        let (column, value) = item;
        list.with(&column, value)
    }
}

impl Item for Relation {
    type Packed = Relations;

    ghost form = { λ _. relation };

    ghost marks = { λ _. false };

    ghost items = { λ list. list };

    fn read<'a>(
        alloc: Global,
        _marked: bool,
        text: &'a [u8],
    ) -> Result<(Relation, &'a [u8]), Halt> {
        let (column, behind) = read_name(alloc, text)?;
        if let Some(behind) = after(&Token::Word(b"like"), behind) {
            let (pattern, behind) = read_string(alloc, behind)?;
            let relation = Relation {
                column,
                test: Test::Like,
                value: Literal::Text(pattern),
            };
            return Ok((relation, behind));
        }
        let (test, behind) = read_test(behind)?;
        let (value, behind) = read_literal(alloc, behind)?;
        let relation = Relation {
            column,
            test,
            value,
        };
        Ok((relation, behind))
    }

    fn marks(&self) -> bool {
        false
    }

    fn empty(alloc: Global) -> Relations {
        Relations::new(alloc)
    }

    fn add(list: Relations, item: Relation) -> Result<Relations, AllocError> {
        list.with(item)
    }
}
