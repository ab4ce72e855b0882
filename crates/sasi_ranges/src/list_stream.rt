// Streams of entries in memory.
ghost use Rattle.std.specs.Prelude.{◌≡◌, Option, drop};
ghost use Rattle.sasi_ranges.specs.Entries.{Rises, from_token};
ghost use Rattle.sasi_ranges.specs.StreamCalls.{Gives};

use crate::{Entry, TokenStream};
use sasi_host::{Host, PageReader, ReadFault};
use sasi_types::Token;
use std::marker::Model;

/// A stream of the entries of a list. Its view are those that are left. The list has to rise, or it leaves nothing that is told.
#[derive(Drop)]
pub struct ListStream {
    entries: Vec<Entry>,
    next: usize,
}

impl Model for ListStream {
    ghost use Rattle.std.specs.Prelude.{List, drop};
    ghost use Rattle.sasi_ranges.specs.declared.entry.Entry.{Entry as SpecEntry};

    ghost Value = { List SpecEntry };

    ghost view = { λ a. drop a.next a.entries.items };
}

// Takes the entry at the position.
fn take_at(entries: &[Entry], next: &mut usize) -> Option<Entry>
    ensures { Gives (λ rest. drop next.new entries.now ≡ rest) (drop next.old entries.now) result }
{
    let entry = entries.get(*next).copied()?;
    *next += 1;
    Some(entry)
}

// The position behind the entries that are below the token.
fn behind(entries: &[Entry], next: usize, token: Token) -> usize
    ensures { drop result entries.now ≡ from_token token (drop next entries.now) }
{
    let mut at = next;
    while at < entries.len() && entries[at].token < token {
        at += 1;
    }
    at
}

impl ListStream {
    /// A stream of these entries.
    pub fn new(entries: Vec<Entry>) -> ListStream
        ensures { result ≡ entries.items }
    {
        ListStream { entries, next: 0 }
    }
}

impl TokenStream for ListStream {
    ghost use Rattle.std.specs.Prelude.{List};
    ghost use Rattle.std.proofs.Common.{subst, sym};

    ghost leaves = { λ s files es. (es ≡ s) × Rises s };

    ghost pays = { λ s files most. Unit {0} };

    ghost opens = { λ s name. ⊥ };

    ghost ready = { λ s files. Unit {0} };

    ghost shows = { λ s files damage. ⊥ };

    ghost rises = { λ s files es is. subst Rises (sym is.0) is.1 };

    ghost keeps = { λ s old new told same. (λ ready. ready, λ es is. is, λ most is. is) };

    fn next<H: Host, P: PageReader>(
        &mut self,
        host: &mut H,
        pages: &mut P,
    ) -> Result<Option<Entry>, ReadFault> {
        let _ = &host;
        let _ = &pages;
        Ok(take_at(&self.entries, &mut self.next))
    }

    fn skip_to<H: Host, P: PageReader>(
        &mut self,
        host: &mut H,
        pages: &mut P,
        token: Token,
    ) -> Result<(), ReadFault> {
        let _ = &host;
        let _ = &pages;
        self.next = behind(&self.entries, self.next, token);
        Ok(())
    }
}
