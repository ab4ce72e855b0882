// The page cache over a host in memory with three files.
ghost use Rattle.std.specs.Prelude.{◌<◌};
ghost use Rattle.sasi_host.specs.Memory.{host_view, memory_host};
ghost use Rattle.sasi_cache.specs.Pages.{ArePages};

use sasi_cache::Cached;
use sasi_host::{FileName, HostFault, MemHost, PageReader};
use std::alloc::Global;
use std::process::Abort;

/// A host with the data files 1 to 3, of 5,000 bytes each. Each byte of a file is its number.
fn host(rt: &impl Abort, alloc: Global) -> MemHost {
    let mut host = MemHost::new(alloc);
    for number in 1_u8..4 {
        let file = FileName::data(u32::from(number));
        host.put(file, &[number; 5000]).expect(rt, "memory");
    }
    host
}

/// Reads a page of the data file of this number, which is there.
fn read(
    rt: &impl Abort,
    host: &mut MemHost,
    pages: &mut Cached,
    number: u8,
    page: u8,
    out: &mut [u8; 4096],
) -> Result<usize, HostFault>
    requires { ArePages (host_view (memory_host host.old)).files pages.old.entries }
    ensures { ArePages (host_view (memory_host host.new)).files pages.new.entries }
{
    let file = FileName::data(u32::from(number));
    assert!(rt; host.bytes(file).is_some());
    pages.page(host, file, u64::from(page), out)
}

/// The page has the bytes of the file, and then so many reads were made.
fn check_page(
    rt: &impl Abort,
    host: &mut MemHost,
    pages: &mut Cached,
    number: u8,
    page: u8,
    reads: u64,
)
    requires { ArePages (host_view (memory_host host.old)).files pages.old.entries }
    ensures { ArePages (host_view (memory_host host.new)).files pages.new.entries }
{
    let mut out = [0; 4096];
    let count = if page == 0 { 4096 } else { 904 };
    assert!(rt; read(rt, host, pages, number, page, &mut out) == Ok(count));
    assert!(rt; out.iter().filter(|byte| **byte == number).count() == count);
    assert!(rt; host.reads() == reads);
}

#[test]
fn page_is_read_once(rt: HostRuntime) {
    let mut host = host(&rt, rt.alloc());
    let mut pages = Cached::new(rt.alloc(), 3).expect(&rt, "memory");
    check_page(&rt, &mut host, &mut pages, 1, 1, 1);
    check_page(&rt, &mut host, &mut pages, 1, 1, 1);
    check_page(&rt, &mut host, &mut pages, 1, 0, 2);
    check_page(&rt, &mut host, &mut pages, 2, 1, 3);
    check_page(&rt, &mut host, &mut pages, 1, 1, 3);
    drop(pages);
    drop(host);
}

#[test]
fn page_used_longest_ago_goes_first(rt: HostRuntime) {
    let mut host = host(&rt, rt.alloc());
    let mut pages = Cached::new(rt.alloc(), 2).expect(&rt, "memory");
    check_page(&rt, &mut host, &mut pages, 1, 0, 1);
    check_page(&rt, &mut host, &mut pages, 2, 0, 2);
    check_page(&rt, &mut host, &mut pages, 1, 0, 2);
    check_page(&rt, &mut host, &mut pages, 3, 0, 3);
    check_page(&rt, &mut host, &mut pages, 1, 0, 3);
    check_page(&rt, &mut host, &mut pages, 2, 0, 4);
    drop(pages);
    drop(host);
}

#[test]
fn forgotten_file_is_read_again(rt: HostRuntime) {
    let mut host = host(&rt, rt.alloc());
    let mut pages = Cached::new(rt.alloc(), 3).expect(&rt, "memory");
    check_page(&rt, &mut host, &mut pages, 1, 0, 1);
    check_page(&rt, &mut host, &mut pages, 2, 0, 2);
    check_page(&rt, &mut host, &mut pages, 1, 1, 3);
    pages.forget(FileName::data(1));
    check_page(&rt, &mut host, &mut pages, 2, 0, 3);
    check_page(&rt, &mut host, &mut pages, 1, 1, 4);
    check_page(&rt, &mut host, &mut pages, 1, 0, 5);
    drop(pages);
    drop(host);
}

#[test]
fn forgetting_leaves_the_order(rt: HostRuntime) {
    let mut host = host(&rt, rt.alloc());
    let mut pages = Cached::new(rt.alloc(), 3).expect(&rt, "memory");
    check_page(&rt, &mut host, &mut pages, 1, 0, 1);
    check_page(&rt, &mut host, &mut pages, 2, 0, 2);
    check_page(&rt, &mut host, &mut pages, 3, 0, 3);
    pages.forget(FileName::data(2));
    check_page(&rt, &mut host, &mut pages, 2, 0, 4);
    check_page(&rt, &mut host, &mut pages, 2, 1, 5);
    check_page(&rt, &mut host, &mut pages, 3, 0, 5);
    check_page(&rt, &mut host, &mut pages, 1, 0, 6);
    drop(pages);
    drop(host);
}

#[test]
fn failed_read_keeps_nothing(rt: HostRuntime) {
    let mut host = host(&rt, rt.alloc());
    host.fail_disk(vec![in rt.alloc(); 1].expect(&rt, "memory"));
    let mut pages = Cached::new(rt.alloc(), 2).expect(&rt, "memory");
    let failed = read(&rt, &mut host, &mut pages, 1, 0, &mut [0; 4096]);
    assert!(rt; failed == Err(HostFault::Failed));
    check_page(&rt, &mut host, &mut pages, 1, 0, 2);
    check_page(&rt, &mut host, &mut pages, 1, 0, 2);
    drop(pages);
    drop(host);
}
