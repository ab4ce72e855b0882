// Collects the pairs of the terms that are asked for.
ghost use Rattle.std.specs.Prelude.{◌≡◌, ◌+◌, ◌*◌, ◌^◌, ◌∷◌, [], IfErr, IfOk, OnOk, false};
ghost use Rattle.sasi_host.specs.View.{ReadCost};
ghost use Rattle.sasi_host.specs.Damages.{DamageShown};
ghost use Rattle.sasi_host.specs.PageReading.{CanRead, HasRead};
ghost use Rattle.sasi_indexwrite.specs.Content.{IndexContent};
ghost use Rattle.sasi_indexread.specs.Asked.{asked_lists, asks_none};
ghost use Rattle.sasi_indexread.specs.Collects.{AddsEntry, AddsList, NoFalseListDamage, ShowsList};
ghost use Rattle.sasi_indexread.specs.Costs.{added_pairs, list_pairs, terms_cost, whole_cost};
ghost use Rattle.sasi_indexread.specs.Damages.{ShowsIndex};
ghost use Rattle.sasi_termblocks.specs.declared.list_form.ListForm.{ListForm as SpecForm};
ghost use Rattle.sasi_termblocks.specs.Forms.{HasForm};
ghost use Rattle.sasi_indexwrite.specs.Format.{form_of};
ghost use Rattle.sasi_treemerge.specs.Merges.{CanMerge, Gives, SpendsReads, held_of, parts_of, sources_of, unread_of};
ghost use Rattle.sasi_indexread.specs.Opened.{IsOpenOn};
ghost use Rattle.sasi_indexread.specs.Searches.{AreListed, NoFalseSearchDamage};

use crate::IndexFile;
use crate::asked::{asks_none, is_match, is_run, lower};
use sasi_host::{Host, PageReader, ReadFault};
use sasi_termblocks::{Blocks, ListForm, TermEntry};
use sasi_terms::Op;
use sasi_treemerge::TreeMerge;
use sasi_types::Mode;
use std::alloc::Global;

// No file has more terms.
const MAX_TERMS: u64 = 1 << 62;

// Where the entries of an index of this mode have the pairs of their terms.
fn form_of(mode: Mode) -> ListForm
    ensures { result ≡ form_of mode }
{
    match mode {
        Mode::Prefix | Mode::Contains => ListForm::Tree,
        Mode::Sparse => ListForm::Inline,
    }
}

// Adds the pairs of an entry: its tree, or those that it has itself.
fn add_list<H: Host, P: PageReader>(
    host: &mut H,
    pages: &mut P,
    entry: &TermEntry,
    merge: &mut TreeMerge,
) -> Result<(), ReadFault>
    requires read { CanRead (P.agrees pages.old) (H.view host.old) merge.old.file }
    requires merge { CanMerge (H.view host.old) merge.old }
    requires form { (form : SpecForm) × HasForm form entry.now }
    ensures ok { OnOk result (AddsList (H.view host.old) merge.old.file entry.now.list entry.now.inline (parts_of merge.old) (parts_of merge.new)) }
    ensures merge { OnOk result (CanMerge (H.view host.new) merge.new) }
    ensures damaged { IfErr result (DamageShown (H.view host.old) merge.old.file (ShowsList merge.old.file entry.now)) }
    ensures undamaged { IfErr result (NoFalseListDamage (H.view host.old) merge.old.file entry.now) }
    ensures read { HasRead (P.agrees pages.new) (P.covers pages.old) (P.covers pages.new) (H.view host.old) (H.view host.new) merge.old.file }
    ensures causes { ReadCost 510 (H.view host.old) (H.view host.new) result }
    ensures reads { SpendsReads (H.view host.old) (H.view host.new) (2 * unread_of (sources_of merge.old) + 2 * list_pairs entry.now.list) (2 * unread_of (sources_of merge.new)) result }
    ensures same { (merge.new.file ≡ merge.old.file) × (merge.new.last ≡ merge.old.last) × (merge.new.floor ≡ merge.old.floor) }
{
    if let Some(list) = entry.list {
        merge.add(host, pages, list)?;
        return Ok(());
    }
    if let Some(pairs) = &entry.inline {
        merge.add_pairs(pairs.as_slice())?;
    }
    Ok(())
}

// Adds the pairs of an entry if its term is asked for, and says whether others can be behind it.
fn add_entry<H: Host, P: PageReader>(
    host: &mut H,
    pages: &mut P,
    index: &IndexFile,
    op: &Op,
    body: &[u8],
    entry: &TermEntry,
    merge: &mut TreeMerge,
) -> Result<bool, ReadFault>
    requires read { CanRead (P.agrees pages.old) (H.view host.old) merge.old.file }
    requires merge { CanMerge (H.view host.old) merge.old }
    requires form { HasForm (form_of index.now.mode) entry.now }
    ensures ok { IfOk result (λ more. AddsEntry (H.view host.old) merge.old.file index.now.kind op.now body.now entry.now more (parts_of merge.old) (parts_of merge.new)) }
    ensures merge { OnOk result (CanMerge (H.view host.new) merge.new) }
    ensures damaged { IfErr result (DamageShown (H.view host.old) merge.old.file (ShowsList merge.old.file entry.now)) }
    ensures undamaged { IfErr result (NoFalseListDamage (H.view host.old) merge.old.file entry.now) }
    ensures read { HasRead (P.agrees pages.new) (P.covers pages.old) (P.covers pages.new) (H.view host.old) (H.view host.new) merge.old.file }
    ensures causes { ReadCost 510 (H.view host.old) (H.view host.new) result }
    ensures reads { SpendsReads (H.view host.old) (H.view host.new) (2 * unread_of (sources_of merge.old) + 2 * added_pairs index.now.kind op.now body.now entry.now) (2 * unread_of (sources_of merge.new)) result }
    ensures same { (merge.new.file ≡ merge.old.file) × (merge.new.last ≡ merge.old.last) × (merge.new.floor ≡ merge.old.floor) }
{
    if !is_match(index.kind(), op, body, entry.term.bytes()) {
        return Ok(!is_run(op));
    }
    add_list(host, pages, entry, merge)?;
    Ok(true)
}

// Adds the pairs of the terms that are asked for.
fn add_terms<H: Host, P: PageReader>(
    alloc: Global,
    host: &mut H,
    pages: &mut P,
    index: &IndexFile,
    op: &Op,
    body: &[u8],
    merge: &mut TreeMerge,
) -> Result<(), ReadFault>
    requires some { asks_none index.now.kind op.now ≡ false }
    requires read { CanRead (P.agrees pages.old) (H.view host.old) index.now.file }
    requires named { merge.old.file ≡ index.now.file }
    requires merge { CanMerge (H.view host.old) merge.old }
    requires listed { AreListed (H.view host.old) index.now (sources_of merge.old) }
    requires spill { (content : IndexContent) (on : IsOpenOn (H.view host.old) index.now content) → Gives on.bytes (content.spill ∷ []) merge.old.last merge.old.floor (parts_of merge.old) }
    ensures ok { OnOk result ((content : IndexContent) (on : IsOpenOn (H.view host.old) index.now content) → Gives on.bytes (asked_lists content op.now body.now) merge.new.last merge.new.floor (parts_of merge.new)) }
    ensures merge { OnOk result (CanMerge (H.view host.new) merge.new) }
    ensures listed { OnOk result (AreListed (H.view host.old) index.now (sources_of merge.new)) }
    ensures damaged { IfErr result (DamageShown (H.view host.old) index.now.file (ShowsIndex index.now)) }
    ensures undamaged { IfErr result (NoFalseSearchDamage (H.view host.old) index.now) }
    ensures read { HasRead (P.agrees pages.new) (P.covers pages.old) (P.covers pages.new) (H.view host.old) (H.view host.new) index.now.file }
    ensures causes { ReadCost (index.now.blocks.levels + 2 + 511 * 2 ^ 62) (H.view host.old) (H.view host.new) result }
    ensures reads { (content : IndexContent) → IsOpenOn (H.view host.old) index.now content
        → SpendsReads (H.view host.old) (H.view host.new) (2 * unread_of (sources_of merge.old) + index.now.blocks.levels + 2 + terms_cost content op.now body.now) (2 * unread_of (sources_of merge.new)) result }
    ensures same { (merge.new.file ≡ merge.old.file) × (merge.new.last ≡ merge.old.last) × (merge.new.floor ≡ merge.old.floor) }
{
    let mut blocks = Blocks::new(alloc, index.file(), index.blocks(), form_of(index.mode()));
    let mut entry = blocks.seek(host, pages, lower(index.kind(), op, body).bytes())?;
    for _turn in 0..MAX_TERMS {
        let Some(found) = &entry else {
            return Ok(());
        };
        if !add_entry(host, pages, index, op, body, found, merge)? {
            return Ok(());
        }
        entry = blocks.next(host, pages)?;
    }
    Ok(())
}

/// Adds the spill tree, and the pairs of the terms that are asked for.
pub fn collect<H: Host, P: PageReader>(
    alloc: Global,
    host: &mut H,
    pages: &mut P,
    index: &IndexFile,
    op: &Op,
    body: &[u8],
    merge: &mut TreeMerge,
) -> Result<(), ReadFault>
    requires read { CanRead (P.agrees pages.old) (H.view host.old) index.now.file }
    requires named { merge.old.file ≡ index.now.file }
    requires merge { CanMerge (H.view host.old) merge.old }
    requires empty { sources_of merge.old ≡ [] }
    requires none_held { held_of merge.old ≡ [] }
    ensures ok { OnOk result ((content : IndexContent) (on : IsOpenOn (H.view host.old) index.now content) → Gives on.bytes (asked_lists content op.now body.now) merge.new.last merge.new.floor (parts_of merge.new)) }
    ensures merge { OnOk result (CanMerge (H.view host.new) merge.new) }
    ensures listed { OnOk result (AreListed (H.view host.old) index.now (sources_of merge.new)) }
    ensures damaged { IfErr result (DamageShown (H.view host.old) index.now.file (ShowsIndex index.now)) }
    ensures undamaged { IfErr result (NoFalseSearchDamage (H.view host.old) index.now) }
    ensures read { HasRead (P.agrees pages.new) (P.covers pages.old) (P.covers pages.new) (H.view host.old) (H.view host.new) index.now.file }
    ensures causes { ReadCost (index.now.blocks.levels + 512 + 511 * 2 ^ 62) (H.view host.old) (H.view host.new) result }
    ensures reads { (content : IndexContent) → IsOpenOn (H.view host.old) index.now content
        → SpendsReads (H.view host.old) (H.view host.new) (whole_cost index.now.blocks.levels content op.now body.now) (2 * unread_of (sources_of merge.new)) result }
    ensures same { (merge.new.file ≡ merge.old.file) × (merge.new.last ≡ merge.old.last) × (merge.new.floor ≡ merge.old.floor) }
{
    merge.add(host, pages, index.spill())?;
    if asks_none(index.kind(), op) {
        return Ok(());
    }
    add_terms(alloc, host, pages, index, op, body, merge)?;
    Ok(())
}
