// The decorated keys of keys.
ghost use Rattle.std.specs.Prelude.{◌≡◌};
ghost use Rattle.sasi_model.specs.State.{decorated};

use sasi_types::{DecoratedKey, Key, Partitioner};

/// The decorated key of a key.
pub fn decorated(partitioner: Partitioner, key: Key) -> DecoratedKey
    ensures { result ≡ decorated partitioner key }
{
    let token = partitioner.token(key.bytes());
    DecoratedKey { token, key }
}
