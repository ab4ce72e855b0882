// A source of candidates, or none.
use crate::Candidates;
use sasi_cells::Partition;
use sasi_host::{Host, PageReader, ReadFault};
use sasi_memindex::MapBook;
use sasi_types::Key;

impl<C: Candidates> Candidates for Option<C> {
    ghost use Rattle.std.specs.Prelude.{◌≡◌, []};
    ghost use Rattle.sasi_recheck.specs.Optional.{SourceOr};
    ghost use Rattle.sasi_recheck.specs.inside.OptionalLaws.{option_keeps};

    // Without a source nothing is left, and nothing is read.
    ghost leaves = { λ s files book left. SourceOr s (λ c. C.leaves c files book left) (left ≡ []) };

    ghost pays = { λ s files book most prices. SourceOr s (λ c. C.pays c files book most prices) (Unit {0}) };

    ghost opens = { λ s name. SourceOr s (λ c. C.opens c name) ⊥ };

    ghost uses = { λ s number. SourceOr s (λ c. C.uses c number) ⊥ };

    ghost ready = { λ s files book. SourceOr s (λ c. C.ready c files book) (Unit {0}) };

    ghost shows = { λ s files damage. SourceOr s (λ c. C.shows c files damage) ⊥ };

    ghost prints = { λ s files book kind. SourceOr s (λ c. C.prints c files book kind) (Unit {0}) };

    ghost kept = { λ _. tt };

    ghost keeps = { option_keeps C.opens C.uses C.ready C.leaves C.pays C.prints C.keeps };

    fn next<H: Host, P: PageReader>(
        &mut self,
        host: &mut H,
        pages: &mut P,
        maps: &MapBook,
    ) -> Result<Option<(Key, Partition)>, ReadFault> {
        match self {
            Some(source) => source.next(host, pages, maps),
            None => Ok(None),
        }
    }
}
