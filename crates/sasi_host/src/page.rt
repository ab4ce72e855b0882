// Files read by pages.
ghost use Rattle.std.specs.Prelude.{◌≡◌, ◌⊎◌, ◌*◌, ◌^◌, ◌<◌, ◌≤◌, IfOk, IsSome, Option};
ghost use Rattle.sasi_host.specs.declared.name.FileName.{FileName};
ghost use Rattle.sasi_host.specs.Names.{Folder};
ghost use Rattle.sasi_host.specs.View.{IsThere, contents, contents_in, KeepsMoments, PageCauses};
ghost use Rattle.sasi_host.specs.Disk.{Changes, Same, Fills};

use crate::{FileName, Host, HostFault};

/// Reads the pages of a host's files, of 4,096 bytes each, and may cache some of them.
pub trait PageReader {
    /// The pages that it caches are those of these files.
    ghost agrees: { Self → Option Folder → Type 0 };

    /// It may cache pages of the file.
    ghost covers: { Self → FileName → Type 0 };

    /// Fills the buffer with the file's bytes from `page` times 4,096 on, and gives how many there were. It makes at most
    /// one read of the host.
    fn page<H: Host>(
        &mut self,
        host: &mut H,
        file: FileName,
        page: u64,
        out: &mut [u8; 4096],
    ) -> Result<usize, HostFault>
        requires there { IsThere (H.view host.old) file }
        requires page { page < 2 ^ 52 }
        requires agrees { agrees self.old (H.view host.old).files }
        ensures ok { IfOk result (λ n. (bytes : _) → contents (H.view host.old) file ≡ Some bytes → Fills bytes (page * 4096) out.old out.new n) }
        ensures within { IfOk result (λ n. n ≤ 4096) }
        ensures agrees { agrees self.new (H.view host.new).files }
        ensures covers { (name : FileName) → covers self.new name → covers self.old name ⊎ (name ≡ file) }
        ensures changes { Changes Same (H.view host.old) (H.view host.new) }
        ensures moments { KeepsMoments (H.view host.old) (H.view host.new) }
        ensures causes { PageCauses (H.view host.old) (H.view host.new) result };

    /// It still agrees while the files that it covers are unchanged.
    ghost keeps: { (reader : Self) (old new : Option Folder) → agrees reader old → (IsSome new → IsSome old)
        → ((name : FileName) → covers reader name → contents_in new name ≡ contents_in old name) → agrees reader new };
}
