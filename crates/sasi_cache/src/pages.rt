// What becomes of the cached pages.
ghost use Rattle.std.specs.Prelude.{◌≡◌, ◌∷◌, ◌++◌, [], ◌≤◌, ◌⊎◌, IfSome, IfNone, None, option_map};
ghost use Rattle.lru.specs.LruCache.{lru_cache, last_entry};
ghost use Rattle.sasi_cache.specs.Pages.{Entry, IsRecalled, cached, kept, without};

use crate::page::Page;
use crate::page_key::PageKey;
use lru::LruCache;
use sasi_host::FileName;

// Copies the bytes of a page to the front of the buffer, if it is cached, and makes it the one used last.
pub fn recall(
    pages: &mut LruCache<PageKey, Page>,
    key: PageKey,
    out: &mut [u8; 4096],
) -> Option<usize>
    ensures some { IfSome result (λ count. IsRecalled key pages.old pages.new out.old out.new count) }
    ensures within { IfSome result (λ count. count ≤ 4096) }
    ensures none { IfNone result (cached key pages.old ≡ None) }
    ensures unused { IfNone result (pages.new ≡ pages.old) }
    ensures untouched { IfNone result (out.new ≡ out.old) }
{
    let page = pages.peek(&key)?;
    let count = page.copy_to(out);
    pages.promote(&key);
    Some(count)
}

// Keeps a page as the one used last, if there is memory for that.
pub fn keep(pages: &mut LruCache<PageKey, Page>, key: PageKey, page: Page)
    ensures { (pages.new ≡ kept key page pages.old) ⊎ (pages.new ≡ pages.old) }
{
    let _ = pages.put(key, page);
}

// Drops the pages of a file. Each page is looked at once, and the others keep their order.
pub fn forget(pages: &mut LruCache<PageKey, Page>, file: FileName)
    ensures { pages.new ≡ lru_cache (without file pages.old.entries) pages.old.cap }
{
    for _turn in 0..pages.len() {
        pass_last(pages, file);
    }
}

// Drops the page used longest ago if it is one of the file's, and puts it in front of the others else.
fn pass_last(pages: &mut LruCache<PageKey, Page>, file: FileName)
    ensures entries { (front : _) (last : Entry) → pages.old.entries ≡ front ++ last ∷ [] → pages.new.entries ≡ without file (last ∷ []) ++ front }
    ensures room { pages.new.cap ≡ pages.old.cap }
{
    let Some(key) = last_key(pages) else {
        return;
    };
    if key.file == file {
        let _ = pages.pop_lru();
        return;
    }
    // Its clause says that no key stands twice.
    let _ = pages.len();
    pages.promote(&key);
}

// The page used longest ago.
fn last_key(pages: &LruCache<PageKey, Page>) -> Option<PageKey>
    ensures { result ≡ option_map (λ e. e.0) (last_entry pages.now.entries) }
{
    let (key, _page) = pages.peek_lru()?;
    Some(*key)
}
