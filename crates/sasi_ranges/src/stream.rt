// Streams of entries.
ghost use Rattle.std.specs.Prelude.{◌≡◌, ℕ, List, Option, IfOk, IsSome, OnOk};
ghost use Rattle.sasi_host.specs.declared.name.FileName.{FileName};
ghost use Rattle.sasi_host.specs.declared.damage.Damage.{Damage};
ghost use Rattle.sasi_host.specs.Names.{Folder};
ghost use Rattle.sasi_host.specs.View.{contents_in};
ghost use Rattle.sasi_ranges.specs.declared.entry.Entry.{Entry as SpecEntry};
ghost use Rattle.sasi_ranges.specs.Entries.{Rises, from_token};
ghost use Rattle.sasi_ranges.specs.StreamCalls.{CanStream, Gives, HasStreamed, Spends, StreamFaults};

use crate::Entry;
use sasi_host::{Host, PageReader, ReadFault};
use sasi_types::Token;

/// Entries that rise, one after another, from the pages of some files. After an error a stream isn't used again.
pub trait TokenStream {
    /// As these files read, these entries are left.
    ghost leaves: { Self → Option Folder → List SpecEntry → Type 0 };

    /// As these files read, all that is left takes at most so many reads.
    ghost pays: { Self → Option Folder → ℕ → Type 0 };

    /// It may read this file.
    ghost opens: { Self → FileName → Type 0 };

    /// The pages that it keeps are those of these files, whether or not they are in the format.
    ghost ready: { Self → Option Folder → Type 0 };

    /// These files show it this damage. No call makes it more, whatever the files are.
    ghost shows: { Self → Option Folder → Damage → Type 0 };

    /// The next entry; None exactly where no entry is left.
    fn next<H: Host, P: PageReader>(
        &mut self,
        host: &mut H,
        pages: &mut P,
    ) -> Result<Option<Entry>, ReadFault>
        requires read { CanStream (P.agrees pages.old) (opens self.old) (H.view host.old) }
        requires ready { ready self.old (H.view host.old).files }
        ensures gives { (es : List SpecEntry) → leaves self.old (H.view host.old).files es → IfOk result (Gives (leaves self.new (H.view host.new).files) es) }
        ensures reads { (most : ℕ) → pays self.old (H.view host.old).files most → Spends (pays self.new (H.view host.new).files) most (H.view host.old).reads (H.view host.new).reads result }
        ensures ready { OnOk result (ready self.new (H.view host.new).files) }
        ensures read { HasStreamed (P.agrees pages.new) (P.covers pages.old) (P.covers pages.new) (opens self.old) (opens self.new) (H.view host.old) (H.view host.new) }
        ensures faults { StreamFaults (shows self.old (H.view host.old).files) (shows self.new (H.view host.new).files) (leaves self.old (H.view host.old).files) (H.view host.old) (H.view host.new) result }
        ensures shows_less { (files : Option Folder) (damage : Damage) → shows self.new files damage → shows self.old files damage };

    /// Drops the entries whose tokens are below this one.
    fn skip_to<H: Host, P: PageReader>(
        &mut self,
        host: &mut H,
        pages: &mut P,
        token: Token,
    ) -> Result<(), ReadFault>
        requires read { CanStream (P.agrees pages.old) (opens self.old) (H.view host.old) }
        requires ready { ready self.old (H.view host.old).files }
        ensures skips { (es : List SpecEntry) → leaves self.old (H.view host.old).files es → OnOk result (leaves self.new (H.view host.new).files (from_token token es)) }
        ensures reads { (most : ℕ) → pays self.old (H.view host.old).files most → Spends (pays self.new (H.view host.new).files) most (H.view host.old).reads (H.view host.new).reads result }
        ensures ready { OnOk result (ready self.new (H.view host.new).files) }
        ensures read { HasStreamed (P.agrees pages.new) (P.covers pages.old) (P.covers pages.new) (opens self.old) (opens self.new) (H.view host.old) (H.view host.new) }
        ensures faults { StreamFaults (shows self.old (H.view host.old).files) (shows self.new (H.view host.new).files) (leaves self.old (H.view host.old).files) (H.view host.old) (H.view host.new) result }
        ensures shows_less { (files : Option Folder) (damage : Damage) → shows self.new files damage → shows self.old files damage };

    /// What is left rises.
    ghost rises: { (s : Self) (files : Option Folder) (es : List SpecEntry) → leaves s files es → Rises es };

    /// What is known of it stays while the files that it may read are unchanged.
    ghost keeps: { (s : Self) (old new : Option Folder) → (IsSome new → IsSome old) → ((name : FileName) → opens s name → contents_in new name ≡ contents_in old name)
        → (ready s old → ready s new) × ((es : List SpecEntry) → leaves s old es → leaves s new es) × ((most : ℕ) → pays s old most → pays s new most) };
}
