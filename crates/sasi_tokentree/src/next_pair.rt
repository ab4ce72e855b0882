// Reads the next pair of a scan, and judges its order.
ghost use Rattle.std.specs.Prelude.{◌≡◌, ◌≤◌, IfErr, IfOk, IsSome, OnErr, OnOk, None};
ghost use Rattle.std.specs.Option.{option_or};
ghost use Rattle.sasi_host.specs.View.{ReadCost};
ghost use Rattle.sasi_host.specs.Damages.{DamageShown};
ghost use Rattle.sasi_host.specs.PageReading.{CanReadOn, HasReadOn};
ghost use Rattle.sasi_tokentree.specs.Damages.{ShowsPairsBy, TellsDisorder};
ghost use Rattle.sasi_tokentree.specs.Reads.{NoFalseTreeDamage};
ghost use Rattle.sasi_tokentree.specs.Scans.{HasPassed, PassesOne, ReadsEntry, ReadsHeader, ReadsNextPair, RisesFrom, IsEntryBuffered, IsLastEntry, entry_cost};

use crate::order::is_before;
use crate::pair_scan::{ScannedPair, last_offset, pair_from};
use sasi_host::{BufferedFile, Damage, FileName, FormatRule, Host, PageReader, ReadFault, found};
use sasi_types::{Pair, TreeRef};

// Checks that the pair that was read comes behind the last one.
fn check_rising(
    file: FileName,
    tree: TreeRef,
    last: Option<Pair>,
    read: ScannedPair,
) -> Result<(), Damage>
    requires { IsSome read.pair → HasPassed tree read.passed }
    ensures rises { OnOk result (RisesFrom last read.pair) }
    ensures damaged { IfErr result (TellsDisorder file tree read.passed last read.pair) }
{
    let Some(pair) = read.pair else {
        return Ok(());
    };
    let Some(before) = last else {
        return Ok(());
    };
    if is_before(before, pair) {
        return Ok(());
    }
    let token = pair.token.to_be_bytes();
    let at = last_offset(tree, read.passed);
    Err(found(file, at, FormatRule::Order, &token))
}

// Reads the pair behind the passed ones. It has to come behind the one that was read last, if there is one.
pub fn next_from<H: Host, P: PageReader>(
    host: &mut H,
    pages: &mut P,
    buffered: &mut BufferedFile,
    tree: TreeRef,
    passed: u64,
    last: Option<Pair>,
) -> Result<ScannedPair, ReadFault>
    requires read { CanReadOn (P.agrees pages.old) (H.view host.old) buffered.old }
    requires last { IsLastEntry (H.view host.old).files buffered.old.file tree passed last }
    ensures ok { IfOk result (λ found. ReadsNextPair (H.view host.old) buffered.old.file tree passed found.passed found.pair) }
    ensures stands { IfOk result (λ found. ReadsEntry (H.view host.old) buffered.old.file tree found.passed found.pair) }
    ensures header { IfOk result (λ found. ReadsHeader (H.view host.old) buffered.old.file tree found.passed found.pair) }
    ensures rises { IfOk result (λ found. RisesFrom last found.pair) }
    ensures last { IfOk result (λ found. IsLastEntry (H.view host.new).files buffered.new.file tree found.passed (option_or found.pair last)) }
    ensures err { OnErr result (IsLastEntry (H.view host.new).files buffered.new.file tree passed last) }
    ensures damaged { IfErr result (DamageShown (H.view host.old) buffered.old.file (ShowsPairsBy (λ index. index ≡ passed) buffered.old.file tree)) }
    ensures undamaged { IfErr result (NoFalseTreeDamage (H.view host.old) buffered.old.file tree) }
    ensures read { HasReadOn (P.agrees pages.new) (P.covers pages.old) (P.covers pages.new) (H.view host.old) (H.view host.new) buffered.old buffered.new }
    ensures entry_buffered { IfOk result (λ found. IsEntryBuffered (record { buffered = buffered.new; tree = tree; passed = found.passed; last = None }) found.pair) }
    ensures passed { IfOk result (λ found. IsSome found.pair → HasPassed tree found.passed) }
    ensures causes { ReadCost (entry_cost buffered.old.page tree passed) (H.view host.old) (H.view host.new) result }
    ensures ends { IfOk result (λ found. PassesOne (record { buffered = buffered.old; tree = tree; passed = passed; last = None }) (record { buffered = buffered.new; tree = tree; passed = found.passed; last = None }) found.pair) }
    ensures ended { tree.pairs ≤ passed → (H.view host.new).reads ≡ (H.view host.old).reads }
{
    let file = buffered.file();
    let next = pair_from(host, pages, buffered, tree, passed)?;
    match check_rising(file, tree, last, next) {
        Ok(()) => Ok(next),
        Err(damage) => Err(ReadFault::Damaged(damage)),
    }
}
