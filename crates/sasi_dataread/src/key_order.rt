// The order of the partitions that a scan gives.
ghost use Rattle.std.specs.Prelude.{◌≡◌, ◌≢◌, take, true, IfErr, IfOk, OnOk, None, Some};
ghost use Rattle.std.specs.Option.{option_map, option_map_or, option_or};
ghost use Rattle.std.specs.Ordering.{is_lt};
ghost use Rattle.sasi_types.specs.DecoratedKey.{decorated_cmp};
ghost use Rattle.sasi_host.specs.declared.damage.FormatRule.TheVariants as format_rule;
ghost use Rattle.sasi_host.specs.declared.fault.ReadFault.TheVariants as read_fault;
ghost use Rattle.sasi_host.specs.Damages.{OnDamage, seen_bytes};
ghost use Rattle.sasi_body.specs.Body.{HasBody};
ghost use Rattle.sasi_datawrite.specs.Format.{partition_bytes};
ghost use Rattle.sasi_dataread.specs.KeyOrder.{KeyRises, TellsKeyDisorder, key_of};
ghost use Rattle.sasi_dataread.specs.Tokens.{token_by};

use sasi_cells::Partition;
use sasi_datawrite::put_partition;
use sasi_host::{Damage, FileName, FormatRule, ReadFault, Seen};
use sasi_types::{Key, Partitioner, Token, compare};
use std::alloc::{AllocError, Global};
use std::marker::Model;

/// The key that a scan gave last, if it gave one. Each key overwrites the bytes of the one before, so a scan allocates no room for each.
#[derive(Drop)]
pub struct LastKey {
    token: Option<Token>,
    key: Vec<u8>,
}

impl Model for LastKey {
    ghost use Rattle.std.specs.Prelude.{Option, ℕ};
    ghost use Rattle.std.specs.Option.{option_map};
    ghost use Rattle.sasi_types.specs.declared.decorated_key.DecoratedKey.{DecoratedKey};

    ghost Value = { Option DecoratedKey };

    ghost view = { λ a. option_map (λ (token : ℕ). record { token = token; key = a.key.items }) a.token };
}

impl LastKey {
    /// That of a scan which gave no key yet.
    pub fn none(alloc: Global) -> LastKey
        ensures { result ≡ None }
    {
        LastKey {
            token: None,
            key: Vec::new(alloc),
        }
    }

    // Whether the key, with its token, comes behind the last one, if there is one.
    fn is_below(&self, token: Token, key: &Key) -> bool
        ensures { result ≡ option_map_or (λ last. is_lt (decorated_cmp last (record { token = token; key = key.now }))) self.now true }
    {
        match self.token {
            None => true,
            Some(last) => compare(last, &self.key, token, key.bytes()).is_lt(),
        }
    }

    /// Checks that the partition at this offset comes behind the last key, if there is one.
    pub fn check_behind(
        &self,
        alloc: Global,
        file: FileName,
        place: u64,
        token: Token,
        key: &Key,
        part: &Partition,
    ) -> Result<(), ReadFault>
        requires { HasBody key.now part.now }
        ensures rises { OnOk result (KeyRises self.now (Some (token, key.now, part.now))) }
        ensures damaged { IfErr result (OnDamage (TellsKeyDisorder file place self.now (token, key.now, part.now))) }
        ensures read { IfErr result (λ f. f ≢ read_fault.Failed) }
    {
        if self.is_below(token, key) {
            return Ok(());
        }
        let damage = out_of_order(alloc, file, place, key, part)?;
        Err(ReadFault::Damaged(damage))
    }

    /// Keeps the key of the partition that a scan gives, if it gives one. After an error the last key isn't used.
    pub fn keep(&mut self, given: &Option<(Token, Key, Partition)>) -> Result<(), AllocError>
        ensures { OnOk result (self.new ≡ option_or (option_map key_of given.now) self.old) }
    {
        if let Some((token, key, _)) = given {
            self.key.clear();
            self.key.extend_from_slice(key.bytes())?;
            self.token = Some(*token);
        }
        Ok(())
    }
}

/// The token of a key whose pair stores this one.
pub fn token_by(tokens: Option<Partitioner>, stored: Token, key: &Key) -> Token
    ensures { result ≡ token_by tokens stored key.now }
{
    match tokens {
        None => stored,
        Some(partitioner) => partitioner.token(key.bytes()),
    }
}

// The damage of a partition at this offset that is out of order. Its first eight bytes are seen.
fn out_of_order(
    alloc: Global,
    file: FileName,
    place: u64,
    key: &Key,
    part: &Partition,
) -> Result<Damage, AllocError>
    requires { HasBody key.now part.now }
    ensures file { IfOk result (λ damage. damage.file ≡ file) }
    ensures rule { IfOk result (λ damage. damage.rule ≡ format_rule.Order) }
    ensures at { IfOk result (λ damage. damage.at ≡ place) }
    ensures seen { IfOk result (λ damage. seen_bytes damage.seen ≡ take 8 (partition_bytes key.now part.now)) }
{
    let mut bytes = Vec::new(alloc);
    put_partition(&mut bytes, key, part)?;
    Ok(Damage {
        file,
        at: place,
        rule: FormatRule::Order,
        seen: Seen::of(&bytes),
    })
}
