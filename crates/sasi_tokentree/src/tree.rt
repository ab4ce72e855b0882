// Scans a tree in a file, pair by pair.
ghost use Rattle.std.specs.Prelude.{◌≡◌, ◌+◌, ◌-◌, ◌*◌, ◌^◌, ◌<◌, ◌≤◌, ℕ, [], IfErr, IfOk, IsSome, MatchResult, OnErr, OnOk, None};
ghost use Rattle.std.specs.Option.{option_or};
ghost use Rattle.sasi_host.specs.declared.name.FileName.{FileName};
ghost use Rattle.sasi_host.specs.View.{ReadCost};
ghost use Rattle.sasi_host.specs.Damages.{DamageShown};
ghost use Rattle.sasi_host.specs.PageReading.{CanReadOn, HasReadOn};
ghost use Rattle.sasi_tokentree.specs.Heights.{height};
ghost use Rattle.sasi_tokentree.specs.Damages.{BeginsLeaf, ShowsPairsBy, ShowsTreeBy, pair_offset};
ghost use Rattle.sasi_tokentree.specs.Reads.{NoFalseTreeDamage};
ghost use Rattle.sasi_tokentree.specs.Scans.{HasPassed, PassesOne, ReadsEntry, ReadsFirstPair, ReadsHeader, ReadsNextPair, RisesFrom, StepsBehindCounted, IsAtLast, IsEntryBuffered, entry_cost};

use crate::next_pair::next_from;
use crate::pair_scan::{first_from, last_offset};
use sasi_host::{BufferedFile, FileName, Host, PageReader, ReadFault};
use sasi_types::{Pair, Token, TreeRef};
use std::marker::Model;

/// A scan of a tree in a file, from any token on. Its view is the buffered file, the reference, how many pairs it has passed and
/// the pair that it gave last. A sequential scan reads each page once.
#[derive(Drop)]
pub struct Tree {
    buffered: BufferedFile,
    tree: TreeRef,
    passed: u64,
    last: Option<Pair>,
}

impl Model for Tree {
    ghost use Rattle.sasi_tokentree.specs.Scans.{PairScan};

    ghost Value = { PairScan };

    ghost view = { λ a. record { buffered = a.buffered; tree = a.tree; passed = a.passed; last = a.last } };
}

impl Tree {
    /// A scan of the tree with this reference, before its first pair. It reads nothing yet.
    pub fn new(file: FileName, tree: TreeRef) -> Tree
        ensures { result ≡ record { buffered = record { file = file; page = None; bytes = [] }; tree = tree; passed = 0; last = None } }
    {
        Tree {
            buffered: BufferedFile::new(file),
            tree,
            passed: 0,
            last: None,
        }
    }

    /// The offset of the pair that was read last.
    pub fn last_offset(&self) -> u64
        requires { HasPassed self.now.tree self.now.passed }
        ensures is { result ≡ pair_offset self.now.tree (self.now.passed - 1) }
        ensures short { result < 2 ^ 63 + 2 ^ 60 }
    {
        last_offset(self.tree, self.passed)
    }

    /// The first pair at or after the token; None where there is none. An error leaves its position unchanged, but may leave
    /// another page buffered.
    pub fn first<H: Host, P: PageReader>(
        &mut self,
        host: &mut H,
        pages: &mut P,
        token: Token,
    ) -> Result<Option<Pair>, ReadFault>
        requires read { CanReadOn (P.agrees pages.old) (H.view host.old) self.old.buffered }
        ensures ok { IfOk result (λ found. ReadsFirstPair (H.view host.old) self.old.buffered.file self.old.tree token self.new.passed found) }
        // In any file it is an entry of a leaf.
        ensures stands { IfOk result (λ found. ReadsEntry (H.view host.old) self.old.buffered.file self.old.tree self.new.passed found) }
        // The first one of a leaf stands behind the leaf's header.
        ensures header { IfOk result (λ found. ReadsHeader (H.view host.old) self.old.buffered.file self.old.tree self.new.passed found) }
        ensures damaged { IfErr result (DamageShown (H.view host.old) self.old.buffered.file (ShowsTreeBy (BeginsLeaf self.old.tree) self.old.buffered.file self.old.tree)) }
        ensures undamaged { IfErr result (NoFalseTreeDamage (H.view host.old) self.old.buffered.file self.old.tree) }
        ensures read { HasReadOn (P.agrees pages.new) (P.covers pages.old) (P.covers pages.new) (H.view host.old) (H.view host.new) self.old.buffered self.new.buffered }
        ensures entry_buffered { IfOk result (IsEntryBuffered self.new) }
        ensures passed { IfOk result (λ found. IsSome found → HasPassed self.new.tree self.new.passed) }
        // In any file it is the one behind those that the nodes count as below, so there is none only where these are all.
        ensures ends { IfOk result (λ found. StepsBehindCounted (H.view host.old) self.old.buffered.file self.old.tree token self.new.passed found) }
        ensures causes { (most : ℕ) → self.old.tree.pairs ≤ most → ReadCost (2 * height most self.old.tree.pairs + 2) (H.view host.old) (H.view host.new) result }
        ensures tree { self.new.tree ≡ self.old.tree }
        ensures err { OnErr result (self.new.passed ≡ self.old.passed) }
        ensures last { MatchResult result (λ found. self.new.last ≡ found) (λ _. self.new.last ≡ self.old.last) }
        ensures at_last { OnOk result (IsAtLast self.new (H.view host.new).files) }
    {
        let found = first_from(host, pages, &mut self.buffered, self.tree, token)?;
        self.passed = found.passed;
        self.last = found.pair;
        Ok(found.pair)
    }

    /// The next pair, which comes behind the one before it; None where there is none. An error leaves its position unchanged,
    /// but may leave another page buffered.
    pub fn next<H: Host, P: PageReader>(
        &mut self,
        host: &mut H,
        pages: &mut P,
    ) -> Result<Option<Pair>, ReadFault>
        requires read { CanReadOn (P.agrees pages.old) (H.view host.old) self.old.buffered }
        requires last { IsAtLast self.old (H.view host.old).files }
        ensures ok { IfOk result (λ found. ReadsNextPair (H.view host.old) self.old.buffered.file self.old.tree self.old.passed self.new.passed found) }
        // In any file it is an entry of a leaf.
        ensures stands { IfOk result (λ found. ReadsEntry (H.view host.old) self.old.buffered.file self.old.tree self.new.passed found) }
        // The first one of a leaf stands behind the leaf's header.
        ensures header { IfOk result (λ found. ReadsHeader (H.view host.old) self.old.buffered.file self.old.tree self.new.passed found) }
        // In any file it comes behind the pair that was given last.
        ensures rises { IfOk result (RisesFrom self.old.last) }
        ensures last { MatchResult result (λ found. self.new.last ≡ option_or found self.old.last) (λ _. self.new.last ≡ self.old.last) }
        ensures at_last { IsAtLast self.new (H.view host.new).files }
        ensures damaged { IfErr result (DamageShown (H.view host.old) self.old.buffered.file (ShowsPairsBy (λ index. index ≡ self.old.passed) self.old.buffered.file self.old.tree)) }
        ensures undamaged { IfErr result (NoFalseTreeDamage (H.view host.old) self.old.buffered.file self.old.tree) }
        ensures read { HasReadOn (P.agrees pages.new) (P.covers pages.old) (P.covers pages.new) (H.view host.old) (H.view host.new) self.old.buffered self.new.buffered }
        ensures entry_buffered { IfOk result (IsEntryBuffered self.new) }
        ensures passed { IfOk result (λ found. IsSome found → HasPassed self.new.tree self.new.passed) }
        ensures causes { ReadCost (entry_cost self.old.buffered.page self.old.tree self.old.passed) (H.view host.old) (H.view host.new) result }
        ensures tree { self.new.tree ≡ self.old.tree }
        ensures err { OnErr result (self.new.passed ≡ self.old.passed) }
        // In any file it ends exactly where all pairs of the reference are passed.
        ensures ends { IfOk result (PassesOne self.old self.new) }
        ensures ended { self.old.tree.pairs ≤ self.old.passed → (H.view host.new).reads ≡ (H.view host.old).reads }
    {
        let found = next_from(
            host,
            pages,
            &mut self.buffered,
            self.tree,
            self.passed,
            self.last,
        )?;
        self.passed = found.passed;
        self.last = found.pair.or(self.last);
        Ok(found.pair)
    }
}
