// The page cache.
ghost use Rattle.std.specs.Prelude.{◌≡◌, ◌≢◌, ◌⊎◌, ◌*◌, ◌^◌, ◌<◌, ◌≤◌, [], Option, Some, None, IsSome, IfOk, OnOk, OnErr};
ghost use Rattle.lru.specs.LruCache.{lru_cache};
ghost use Rattle.sasi_host.specs.declared.name.FileName.{FileName};
ghost use Rattle.sasi_host.specs.Names.{Folder};
ghost use Rattle.sasi_host.specs.View.{IsThere, KeepsMoments, PageCauses, contents};
ghost use Rattle.sasi_host.specs.Disk.{Changes, Fills, Same};
ghost use Rattle.sasi_cache.specs.Pages.{ArePages, Covers, Keeps, cached, page_key, pages_still, recalled, without};

use crate::page::Page;
use crate::page_key::PageKey;
use crate::pages;
use lru::LruCache;
use sasi_host::{Failed, FileName, Host, HostFault, PageReader};
use std::alloc::{AllocError, Global};
use std::marker::Model;
use std::num::NonZeroUsize;

/// A page reader that keeps the pages used last, up to so many. Where a further one is kept, the one used longest ago goes.
#[derive(Drop)]
pub struct Cached {
    pages: LruCache<PageKey, Page>,
}

impl Model for Cached {
    ghost use Rattle.sasi_cache.specs.Pages.{Pages};

    ghost Value = { Pages };

    ghost view = { λ c. c.pages };
}

impl Cached {
    /// An empty cache for up to so many pages. Memory for a page is taken when it is kept, so that an unused cache costs little.
    pub fn new(alloc: Global, pages: usize) -> Result<Cached, AllocError>
        requires { 0 < pages }
        ensures empty { IfOk result (λ c. c ≡ lru_cache [] pages) }
        ensures agrees { IfOk result (λ c. (files : Option Folder) → ArePages files c.entries) }
        ensures covers { IfOk result (λ c. (name : FileName) → Covers c.entries name → ⊥) }
    {
        let room = NonZeroUsize::new(pages).unwrap();
        let pages = LruCache::sparse(alloc, room)?;
        Ok(Cached { pages })
    }

    /// Drops the pages of a file. Its caller does so before the file changes or is deleted.
    pub fn forget(&mut self, file: FileName)
        ensures others { self.new ≡ lru_cache (without file self.old.entries) self.old.cap }
        ensures agrees { (files : Option Folder) → ArePages files self.old.entries → ArePages files self.new.entries }
        ensures covers { (name : FileName) → Covers self.new.entries name → Covers self.old.entries name × (name ≢ file) }
    {
        pages::forget(&mut self.pages, file);
    }
}

impl PageReader for Cached {
    ghost agrees = { λ c files. ArePages files c.entries };

    ghost covers = { λ c name. Covers c.entries name };

    ghost keeps = { λ c old new are told same. pages_still c.entries old new are same };

    fn page<H: Host>(
        &mut self,
        host: &mut H,
        file: FileName,
        page: u64,
        out: &mut [u8; 4096],
    ) -> Result<usize, HostFault>
        requires there { IsThere (H.view host.old) file }
        requires page { page < 2 ^ 52 }
        requires agrees { ArePages (H.view host.old).files self.old.entries }
        ensures ok { IfOk result (λ n. (bytes : _) → contents (H.view host.old) file ≡ Some bytes → Fills bytes (page * 4096) out.old out.new n) }
        ensures within { IfOk result (λ n. n ≤ 4096) }
        ensures agrees { ArePages (H.view host.new).files self.new.entries }
        ensures covers { (name : FileName) → Covers self.new.entries name → Covers self.old.entries name ⊎ (name ≡ file) }
        ensures changes { Changes Same (H.view host.old) (H.view host.new) }
        ensures moments { KeepsMoments (H.view host.old) (H.view host.new) }
        ensures causes { PageCauses (H.view host.old) (H.view host.new) result }
        ensures free { IsSome (cached (page_key file page) self.old) → host.new ≡ host.old }
        ensures used { IsSome (cached (page_key file page) self.old) → self.new ≡ recalled (page_key file page) self.old }
        ensures kept { cached (page_key file page) self.old ≡ None → OnOk result (Keeps (page_key file page) self.old self.new) }
        ensures failed { OnErr result (self.new ≡ self.old) }
    {
        let key = PageKey { file, page };
        if let Some(count) = pages::recall(&mut self.pages, key, out) {
            return Ok(count);
        }
        match host.read(file, page * 4096, out) {
            Ok(count) => {
                pages::keep(&mut self.pages, key, Page::new(out, count));
                Ok(count)
            }
            Err(Failed) => Err(HostFault::Failed),
        }
    }
}
