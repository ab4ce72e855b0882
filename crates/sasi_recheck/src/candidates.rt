// Sources of candidates.
ghost use Rattle.std.specs.Prelude.{◌≡◌, ◌+◌, ℕ, List, Option, IfOk, IsSome, OnOk, drop};
ghost use Rattle.std.specs.FinMap.{get};
ghost use Rattle.sasi_types.specs.declared.column.ColumnType.{ColumnType};
ghost use Rattle.sasi_host.specs.declared.name.FileName.{FileName};
ghost use Rattle.sasi_host.specs.declared.damage.Damage.{Damage};
ghost use Rattle.sasi_host.specs.Names.{Folder};
ghost use Rattle.sasi_host.specs.View.{contents_in};
ghost use Rattle.sasi_memindex.specs.Book.{Book};
ghost use Rattle.sasi_ranges.specs.StreamCalls.{CanStream, HasStreamed, Spends, StreamFaults};
ghost use Rattle.sasi_memindex.specs.Growth.{IsGrown};
ghost use Rattle.sasi_recheck.specs.Sources.{Candidate, GivesFirst, GivesPrintable, first_price};

use sasi_cells::Partition;
use sasi_host::{Host, PageReader, ReadFault};
use sasi_memindex::MapBook;
use sasi_types::Key;

/// The candidates of a SELECT, one after another: keys, each with what all parts of the table have of it, merged. After an error a
/// source isn't used again.
pub trait Candidates {
    /// As these files and maps are, these candidates are left.
    ghost leaves: { Self → Option Folder → Book → List Candidate → Type 0 };

    /// As these files and maps are, all that is left takes at most so many reads, and beside them these prices.
    ghost pays: { Self → Option Folder → Book → ℕ → List ℕ → Type 0 };

    /// It may read this file.
    ghost opens: { Self → FileName → Type 0 };

    /// It looks at the map with this number.
    ghost uses: { Self → ℕ → Type 0 };

    /// What it keeps of these files was read from them, whether or not they are in the format.
    ghost ready: { Self → Option Folder → Book → Type 0 };

    /// These files show it this damage. No call makes it more, whatever the files are.
    ghost shows: { Self → Option Folder → Damage → Type 0 };

    /// Whatever the files are, what it gives can be printed in a table whose keys have this type.
    ghost prints: { Self → Option Folder → Book → ColumnType → Type 0 };

    /// What no call changes.
    ghost Kept: { Type 0 } = { Unit {0} };

    ghost kept: { Self → Self.Kept };

    /// The next candidate; None exactly where none is left.
    fn next<H: Host, P: PageReader>(
        &mut self,
        host: &mut H,
        pages: &mut P,
        maps: &MapBook,
    ) -> Result<Option<(Key, Partition)>, ReadFault>
        requires read { CanStream (P.agrees pages.old) (opens self.old) (H.view host.old) }
        requires ready { ready self.old (H.view host.old).files maps.now }
        ensures gives { (left : List Candidate) → leaves self.old (H.view host.old).files maps.now left → IfOk result (GivesFirst (leaves self.new (H.view host.new).files maps.now) left) }
        ensures reads { (most : ℕ) (prices : List ℕ) → pays self.old (H.view host.old).files maps.now most prices
            → Spends (λ rest. pays self.new (H.view host.new).files maps.now rest (drop 1 prices)) (most + first_price prices) (H.view host.old).reads (H.view host.new).reads result }
        ensures ready { OnOk result (ready self.new (H.view host.new).files maps.now) }
        ensures uses { (number : ℕ) → uses self.new number → uses self.old number }
        ensures kept { kept self.new ≡ kept self.old }
        ensures prints { (kind : ColumnType) → prints self.old (H.view host.old).files maps.now kind → IfOk result (GivesPrintable kind) }
        ensures still_prints { (kind : ColumnType) → prints self.old (H.view host.old).files maps.now kind → OnOk result (prints self.new (H.view host.new).files maps.now kind) }
        ensures read { HasStreamed (P.agrees pages.new) (P.covers pages.old) (P.covers pages.new) (opens self.old) (opens self.new) (H.view host.old) (H.view host.new) }
        ensures faults { StreamFaults (shows self.old (H.view host.old).files) (shows self.new (H.view host.new).files) (leaves self.old (H.view host.old).files maps.now) (H.view host.old) (H.view host.new) result }
        ensures shows_less { (files : Option Folder) (damage : Damage) → shows self.new files damage → shows self.old files damage };

    /// What is known of it stays while the files that it may read are unchanged, and of the maps that it looks at at most indexes were added.
    ghost keeps: { (s : Self) (old new : Option Folder) (was now : Book) → (IsSome new → IsSome old) → ((name : FileName) → opens s name → contents_in new name ≡ contents_in old name) → ((number : ℕ) → uses s number → IsGrown (get was number) (get now number))
        → (ready s old was → ready s new now) × ((left : List Candidate) → leaves s old was left → leaves s new now left) × ((most : ℕ) (prices : List ℕ) → pays s old was most prices → pays s new now most prices) × ((kind : ColumnType) → prints s old was kind → prints s new now kind) };
}
