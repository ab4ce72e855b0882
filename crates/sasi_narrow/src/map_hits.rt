// The hits of a relation in a map in memory.
ghost use Rattle.std.specs.Prelude.{◌≡◌, OnOk, nat_eq};
ghost use Rattle.std.specs.List.{filter};
ghost use Rattle.std.specs.List.Sorted.{IsStrictlySortedBy};
ghost use Rattle.sasi_types.specs.DecoratedKey.{decorated_cmp};
ghost use Rattle.sasi_narrow.specs.Narrowing.{hit_in_map};
ghost use Rattle.sasi_narrow.specs.inside.KeyRefs.{AddsKeys};

use sasi_types::{DecoratedKey, Key, Token};
use std::alloc::AllocError;

// The keys with a token, of keys in their order.
fn keys_of(keys: &[DecoratedKey], token: Token) -> &[DecoratedKey]
    ensures { IsStrictlySortedBy decorated_cmp keys.now
        → result.now ≡ filter (λ key. nat_eq key.token token) keys.now }
{
    let first = keys.partition_point(|key| key.token < token);
    let rest = &keys[first..];
    let end = rest.partition_point(|key| key.token <= token);
    &rest[..end]
}

/// Adds those of some keys in their order that have the token.
pub fn add_map_hits<'a>(
    hits: &mut Vec<&'a Key>,
    token: Token,
    found: &'a [DecoratedKey],
) -> Result<(), AllocError>
    ensures { IsStrictlySortedBy decorated_cmp found.now
        → OnOk result (AddsKeys (hit_in_map token found.now) hits.old.items hits.new.items) }
{
    let keys = keys_of(found, token);
    for key in keys {
        hits.push(&key.key)?;
    }
    Ok(())
}
