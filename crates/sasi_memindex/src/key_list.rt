// The keys that a search gives.
ghost use Rattle.std.specs.Prelude.{◌≡◌};

use sasi_types::DecoratedKey;
use std::marker::Model;

/// Some keys, in their order and each once.
#[derive(Debug, Drop)]
pub struct KeyList {
    items: Vec<DecoratedKey>,
}

impl Model for KeyList {
    ghost use Rattle.std.specs.Prelude.{List};
    ghost use Rattle.sasi_types.specs.declared.decorated_key.DecoratedKey.{DecoratedKey};

    ghost Value = { List DecoratedKey };

    ghost view = { λ a. a.items.items };
}

impl KeyList {
    /// These keys, which are in order and each there once.
    pub fn new(items: Vec<DecoratedKey>) -> KeyList
        ensures { result ≡ items.items }
    {
        KeyList { items }
    }

    /// The keys, in order.
    pub fn as_slice(&self) -> &[DecoratedKey]
        ensures { result.now ≡ self.now }
    {
        &self.items
    }
}
