// Hits of a relation in any part.
use crate::{FileKeys, IndexHits};
use sasi_host::{Host, PageReader, ReadFault};
use sasi_ranges::{Entry, ListStream, TokenStream};
use sasi_types::Token;

/// The hits of a relation in a part.
#[derive(Drop)]
pub enum Hits {
    /// In a data file with the index file of the relation's column.
    Index(IndexHits),
    /// In a data file without it, where each key is a hit.
    Keys(FileKeys),
    /// In a memtable or a frozen map.
    Map(ListStream),
}

impl TokenStream for Hits {
    ghost use Rattle.sasi_hits.specs.Hits.{Leaves, Opens, Pays, Ready, Shows, leaves_rise, stays};

    ghost leaves = { Leaves };

    ghost pays = { Pays };

    ghost opens = { Opens };

    ghost ready = { Ready };

    ghost shows = { Shows };

    ghost rises = { leaves_rise };

    ghost keeps = { λ s old new told same. stays s old new told same };

    fn next<H: Host, P: PageReader>(
        &mut self,
        host: &mut H,
        pages: &mut P,
    ) -> Result<Option<Entry>, ReadFault> {
        match self {
            Hits::Index(hits) => hits.next(host, pages),
            Hits::Keys(hits) => hits.next(host, pages),
            Hits::Map(hits) => hits.next(host, pages),
        }
    }

    fn skip_to<H: Host, P: PageReader>(
        &mut self,
        host: &mut H,
        pages: &mut P,
        token: Token,
    ) -> Result<(), ReadFault> {
        match self {
            Hits::Index(hits) => hits.skip_to(host, pages, token),
            Hits::Keys(hits) => hits.skip_to(host, pages, token),
            Hits::Map(hits) => hits.skip_to(host, pages, token),
        }
    }
}
