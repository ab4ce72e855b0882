// What a search of an index file gives.
ghost use Rattle.std.specs.Prelude.{IfOk, OnOk};
ghost use Rattle.sasi_host.specs.Memory.{host_view, memory_host};
ghost use Rattle.sasi_searches.specs.Searching.{IsSearchOf};

use crate::asked::Asked;
use sasi_host::{Damage, Direct, FileName, Kind, MemHost, ReadFault};
use sasi_indexread::{IndexFile, Search};
use sasi_types::Pair;
use std::alloc::{AllocError, Global};

// The file that is searched.
const FILE: FileName = FileName {
    kind: Kind::Index,
    number: 1,
    index: 1,
    part: 1,
};

// A search of the file.
fn search(alloc: Global, host: &mut MemHost, asked: &Asked) -> Result<Search, ReadFault>
    ensures { IfOk result (λ search. IsSearchOf FILE (host_view (memory_host host.new)) search) }
{
    if host.bytes(FILE).is_none() {
        return Err(ReadFault::Failed);
    }
    let index = IndexFile::open(host, &mut Direct, FILE)?;
    let search = index.search(alloc, &asked.op, &asked.body)?;
    Ok(search)
}

// The next pair of a search.
fn next(host: &mut MemHost, found: &mut Search) -> Result<Option<Pair>, ReadFault>
    requires { IsSearchOf FILE (host_view (memory_host host.old)) found.old }
    ensures { OnOk result (IsSearchOf FILE (host_view (memory_host host.new)) found.new) }
{
    if host.bytes(FILE).is_none() {
        return Err(ReadFault::Failed);
    }
    let pair = found.next(host, &mut Direct)?;
    Ok(pair)
}

// Adds a pair to the text.
fn add_pair(alloc: Global, text: &mut String, pair: Pair) -> Result<(), AllocError> {
    let pair = format!(in alloc; " {}:{}", pair.token, pair.place)?;
    text.push_str(&pair)
}

// Adds the pairs of a search to the text.
fn collect(
    alloc: Global,
    host: &mut MemHost,
    found: Search,
    text: &mut String,
) -> Result<(), ReadFault>
    requires { IsSearchOf FILE (host_view (memory_host host.old)) found }
{
    let mut found = found;
    for _turn in 0..u64::MAX {
        let Some(pair) = next(host, &mut found)? else {
            return Ok(());
        };
        add_pair(alloc, text, pair)?;
    }
    Ok(())
}

// Opens the file, searches it, and adds the pairs to the text.
fn search_all(
    alloc: Global,
    host: &mut MemHost,
    asked: &Asked,
    text: &mut String,
) -> Result<(), ReadFault> {
    let found = search(alloc, host, asked)?;
    collect(alloc, host, found, text)
}

fn damage_text(alloc: Global, damage: &Damage) -> Result<String, AllocError> {
    let seen = &damage.seen;
    let seen = seen.bytes.get(..usize::from(seen.len)).unwrap_or(&[]);
    let seen = hex::encode(alloc, seen)?;
    format!(in alloc; "damaged at {} {:?} {seen}", damage.at, damage.rule)
}

/// What the search of a file of these bytes gives.
pub fn result_of(alloc: Global, bytes: &[u8], asked: &Asked) -> Result<String, AllocError> {
    let mut host = MemHost::new(alloc);
    host.put(FILE, bytes)?;
    let mut text = String::from_str(alloc, "pairs")?;
    match search_all(alloc, &mut host, asked, &mut text) {
        Ok(()) => Ok(text),
        Err(ReadFault::Damaged(damage)) => damage_text(alloc, &damage),
        Err(ReadFault::Failed) => String::from_str(alloc, "failed"),
        Err(ReadFault::OutOfMemory) => String::from_str(alloc, "out of memory"),
    }
}
