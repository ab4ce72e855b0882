// Scans a data file, partition by partition.
ghost use Rattle.std.specs.Prelude.{◌≡◌, ◌⊎◌, ◌+◌, [], IfErr, IfOk, IfSome, OnErr, OnOk, None};
ghost use Rattle.std.specs.Option.{option_map, option_or};
ghost use Rattle.sasi_host.specs.declared.name.FileName.{FileName};
ghost use Rattle.sasi_host.specs.View.{ReadCost};
ghost use Rattle.sasi_host.specs.Damages.{DamageShown};
ghost use Rattle.sasi_host.specs.Buffered.{IsBuffered};
ghost use Rattle.sasi_host.specs.PageReading.{CanRead, HasRead};
ghost use Rattle.sasi_body.specs.Body.{IsBodyOf};
ghost use Rattle.sasi_tokentree.specs.Scans.{IsAtLast};
ghost use Rattle.sasi_dataread.specs.ReadCosts.{ScansPagesOnce, scan_of};
ghost use Rattle.sasi_dataread.specs.Damages.{ShowsData};
ghost use Rattle.sasi_dataread.specs.KeyOrder.{IsLastKey, KeyRises, key_of};
ghost use Rattle.sasi_dataread.specs.Scans.{PassesPartition, ReadsNextPartition, NoFalseScanDamage, pairs_of};

use crate::DataFile;
use crate::key_order::{LastKey, token_by};
use crate::pair::partition_of_pair;
use sasi_cells::Partition;
use sasi_host::{BufferedFile, FileName, Host, PageReader, ReadFault};
use sasi_tokentree::Tree;
use sasi_types::{Key, Partitioner, Token};
use std::alloc::Global;
use std::marker::Model;

/// A scan of a data file, from its first partition on. Its view is the file, where its tokens come from, how many partitions it has
/// passed, its buffered pages, the pair of the key tree that it read last and the key that it gave last.
#[derive(Drop)]
pub struct Walk {
    opened: DataFile,
    // The partitioner under which it takes tokens from the keys; none where it takes those that the key tree stores.
    tokens: Option<Partitioner>,
    tree: Tree,
    buffered: BufferedFile,
    last: LastKey,
}

impl Model for Walk {
    ghost use Rattle.std.specs.Prelude.{◌≡◌};
    ghost use Rattle.sasi_dataread.specs.Scans.{DataScan};

    ghost Value = { DataScan };

    ghost view = { λ a. record { opened = a.opened; tokens = a.tokens; passed = a.tree.passed; pairs_buffered = a.tree.buffered; buffered = a.buffered; last_pair = a.tree.last; last = a.last } };

    ghost invariant = { λ a. (a.tree.buffered.file ≡ a.opened.file) × (a.tree.tree ≡ a.opened.tree) × (a.buffered.file ≡ a.opened.file) };
}

impl Walk {
    // A scan of this file, before its first partition, with the tokens of its key tree.
    pub(crate) fn new(alloc: Global, opened: DataFile) -> Walk
        ensures { result ≡ record { opened = opened; tokens = None; passed = 0; pairs_buffered = record { file = opened.file; page = None; bytes = [] }; buffered = record { file = opened.file; page = None; bytes = [] }; last_pair = None; last = None } }
    {
        let tree = opened.tree();
        let buffered = opened.buffered_file();
        Walk {
            opened,
            tokens: None,
            tree,
            buffered,
            last: LastKey::none(alloc),
        }
    }

    /// The same scan, which takes the token of each key from the key, under this partitioner, or from the key tree where there is none.
    /// It is called before the first partition.
    pub fn with_tokens(mut self, tokens: Option<Partitioner>) -> Walk
        ensures { result ≡ record { opened = self.opened; tokens = tokens; passed = self.passed; pairs_buffered = self.pairs_buffered; buffered = self.buffered; last_pair = self.last_pair; last = self.last } }
    {
        self.tokens = tokens;
        self
    }

    /// The next partition, with the token of its key; None exactly at the end. Its key comes behind the one that was given before.
    /// After a fault its position is before that partition or behind it, and it isn't used again.
    pub fn next<H: Host, P: PageReader>(
        &mut self,
        alloc: Global,
        host: &mut H,
        pages: &mut P,
    ) -> Result<Option<(Token, Key, Partition)>, ReadFault>
        requires read { CanRead (P.agrees pages.old) (H.view host.old) self.old.opened.file }
        requires pairs_buffered { IsBuffered self.old.pairs_buffered (H.view host.old).files }
        requires buffered { IsBuffered self.old.buffered (H.view host.old).files }
        requires at_last { IsAtLast (pairs_of self.old) (H.view host.old).files }
        requires last { IsLastKey (H.view host.old).files self.old.opened self.old.tokens self.old.passed self.old.last }
        ensures ok { IfOk result (λ found. ReadsNextPartition (H.view host.old) self.old.opened self.old.tokens self.old.passed self.new.passed found) }
        // In any file it has a body in the table.
        ensures in_table { IfOk result (λ found. IfSome found (λ one. IsBodyOf self.old.opened.types one.1 one.2)) }
        // In any file it is that to which the next pair of the key tree leads, and none exactly where all pairs are passed.
        ensures passes { IfOk result (PassesPartition (H.view host.old) self.old.opened self.old.tokens self.old.passed self.new.passed) }
        // In any file its key comes behind the one that was given last.
        ensures rises { IfOk result (KeyRises self.old.last) }
        ensures last { IfOk result (λ found. self.new.last ≡ option_or (option_map key_of found) self.old.last) }
        ensures err { OnErr result ((self.new.passed ≡ self.old.passed) ⊎ (self.new.passed ≡ self.old.passed + 1)) }
        ensures damaged { IfErr result (DamageShown (H.view host.old) self.old.opened.file (ShowsData self.old.opened)) }
        ensures undamaged { IfErr result (NoFalseScanDamage (H.view host.old) self.old.opened self.old.tokens) }
        ensures read { HasRead (P.agrees pages.new) (P.covers pages.old) (P.covers pages.new) (H.view host.old) (H.view host.new) self.old.opened.file }
        ensures pairs_buffered { IsBuffered self.new.pairs_buffered (H.view host.new).files }
        ensures buffered { IsBuffered self.new.buffered (H.view host.new).files }
        ensures at_last { IsAtLast (pairs_of self.new) (H.view host.new).files }
        ensures last_key { OnOk result (IsLastKey (H.view host.new).files self.new.opened self.new.tokens self.new.passed self.new.last) }
        ensures causes { ReadCost 2052 (H.view host.old) (H.view host.new) result }
        // A sequential scan reads each page once, also where it fails.
        ensures reads { ScansPagesOnce (H.view host.old) (H.view host.new) self.old self.new result }
        ensures opened { self.new.opened ≡ self.old.opened }
        ensures tokens { self.new.tokens ≡ self.old.tokens }
        ensures pairs_named { self.new.pairs_buffered.file ≡ self.new.opened.file }
        ensures named { self.new.buffered.file ≡ self.new.opened.file }
    {
        next_behind(
            alloc,
            host,
            pages,
            &self.opened,
            self.tokens,
            &mut self.tree,
            &mut self.buffered,
            &mut self.last,
        )
    }
}

// Reads the next partition of the file, and keeps its key.
fn next_behind<H: Host, P: PageReader>(
    alloc: Global,
    host: &mut H,
    pages: &mut P,
    opened: &DataFile,
    tokens: Option<Partitioner>,
    tree: &mut Tree,
    buffered: &mut BufferedFile,
    last: &mut LastKey,
) -> Result<Option<(Token, Key, Partition)>, ReadFault>
    requires read { CanRead (P.agrees pages.old) (H.view host.old) opened.now.file }
    requires file { tree.old.buffered.file ≡ opened.now.file }
    requires tree { tree.old.tree ≡ opened.now.tree }
    requires named { buffered.old.file ≡ opened.now.file }
    requires pairs_buffered { IsBuffered tree.old.buffered (H.view host.old).files }
    requires buffered { IsBuffered buffered.old (H.view host.old).files }
    requires at_last { IsAtLast tree.old (H.view host.old).files }
    requires last { IsLastKey (H.view host.old).files opened.now tokens tree.old.passed last.old }
    ensures ok { IfOk result (λ found. ReadsNextPartition (H.view host.old) opened.now tokens tree.old.passed tree.new.passed found) }
    ensures in_table { IfOk result (λ found. IfSome found (λ one. IsBodyOf opened.now.types one.1 one.2)) }
    ensures passes { IfOk result (PassesPartition (H.view host.old) opened.now tokens tree.old.passed tree.new.passed) }
    ensures rises { IfOk result (KeyRises last.old) }
    ensures last { IfOk result (λ found. last.new ≡ option_or (option_map key_of found) last.old) }
    ensures last_key { OnOk result (IsLastKey (H.view host.new).files opened.now tokens tree.new.passed last.new) }
    ensures err { OnErr result ((tree.new.passed ≡ tree.old.passed) ⊎ (tree.new.passed ≡ tree.old.passed + 1)) }
    ensures damaged { IfErr result (DamageShown (H.view host.old) opened.now.file (ShowsData opened.now)) }
    ensures undamaged { IfErr result (NoFalseScanDamage (H.view host.old) opened.now tokens) }
    ensures read { HasRead (P.agrees pages.new) (P.covers pages.old) (P.covers pages.new) (H.view host.old) (H.view host.new) opened.now.file }
    ensures pairs_buffered { IsBuffered tree.new.buffered (H.view host.new).files }
    ensures buffered { IsBuffered buffered.new (H.view host.new).files }
    ensures at_last { IsAtLast tree.new (H.view host.new).files }
    ensures causes { ReadCost 2052 (H.view host.old) (H.view host.new) result }
    ensures reads { ScansPagesOnce (H.view host.old) (H.view host.new) (scan_of opened.now tree.old buffered.old) (scan_of opened.now tree.new buffered.new) result }
    ensures file { tree.new.buffered.file ≡ tree.old.buffered.file }
    ensures named { buffered.new.file ≡ buffered.old.file }
    ensures tree { tree.new.tree ≡ tree.old.tree }
{
    let found = next_partition(alloc, host, pages, opened, tokens, tree, buffered, last)?;
    last.keep(&found)?;
    Ok(found)
}

// Reads the next partition of the file, by its key tree.
fn next_partition<H: Host, P: PageReader>(
    alloc: Global,
    host: &mut H,
    pages: &mut P,
    opened: &DataFile,
    tokens: Option<Partitioner>,
    tree: &mut Tree,
    buffered: &mut BufferedFile,
    last: &LastKey,
) -> Result<Option<(Token, Key, Partition)>, ReadFault>
    requires read { CanRead (P.agrees pages.old) (H.view host.old) opened.now.file }
    requires file { tree.old.buffered.file ≡ opened.now.file }
    requires tree { tree.old.tree ≡ opened.now.tree }
    requires named { buffered.old.file ≡ opened.now.file }
    requires pairs_buffered { IsBuffered tree.old.buffered (H.view host.old).files }
    requires buffered { IsBuffered buffered.old (H.view host.old).files }
    requires at_last { IsAtLast tree.old (H.view host.old).files }
    requires last { IsLastKey (H.view host.old).files opened.now tokens tree.old.passed last.now }
    ensures ok { IfOk result (λ found. ReadsNextPartition (H.view host.old) opened.now tokens tree.old.passed tree.new.passed found) }
    ensures in_table { IfOk result (λ found. IfSome found (λ one. IsBodyOf opened.now.types one.1 one.2)) }
    ensures passes { IfOk result (PassesPartition (H.view host.old) opened.now tokens tree.old.passed tree.new.passed) }
    ensures rises { IfOk result (KeyRises last.now) }
    ensures last { IfOk result (λ found. IsLastKey (H.view host.new).files opened.now tokens tree.new.passed (option_or (option_map key_of found) last.now)) }
    ensures err { OnErr result ((tree.new.passed ≡ tree.old.passed) ⊎ (tree.new.passed ≡ tree.old.passed + 1)) }
    ensures damaged { IfErr result (DamageShown (H.view host.old) opened.now.file (ShowsData opened.now)) }
    ensures undamaged { IfErr result (NoFalseScanDamage (H.view host.old) opened.now tokens) }
    ensures read { HasRead (P.agrees pages.new) (P.covers pages.old) (P.covers pages.new) (H.view host.old) (H.view host.new) opened.now.file }
    ensures pairs_buffered { IsBuffered tree.new.buffered (H.view host.new).files }
    ensures buffered { IsBuffered buffered.new (H.view host.new).files }
    ensures at_last { IsAtLast tree.new (H.view host.new).files }
    ensures causes { ReadCost 2052 (H.view host.old) (H.view host.new) result }
    ensures reads { ScansPagesOnce (H.view host.old) (H.view host.new) (scan_of opened.now tree.old buffered.old) (scan_of opened.now tree.new buffered.new) result }
    ensures file { tree.new.buffered.file ≡ tree.old.buffered.file }
    ensures named { buffered.new.file ≡ buffered.old.file }
    ensures tree { tree.new.tree ≡ tree.old.tree }
{
    let pair = match tree.next(host, pages)? {
        None => return Ok(None),
        Some(pair) => pair,
    };
    let (key, part) = partition_of_pair(alloc, host, pages, opened, tree, buffered, pair.place)?;
    let token = token_by(tokens, pair.token, &key);
    last.check_behind(alloc, buffered.file(), pair.place, token, &key, &part)?;
    Ok(Some((token, key, part)))
}
