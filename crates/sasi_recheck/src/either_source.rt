// One source of candidates or another.
use crate::Candidates;
use either::{Either, Left, Right};
use sasi_cells::Partition;
use sasi_host::{Host, PageReader, ReadFault};
use sasi_memindex::MapBook;
use sasi_types::Key;

impl<L: Candidates, R: Candidates> Candidates for Either<L, R> {
    ghost use Rattle.either.specs.Either.{MatchEither};
    ghost use Rattle.sasi_recheck.specs.inside.EitherLaws.{either_keeps};

    ghost leaves = { λ s files book left. MatchEither s (λ a. L.leaves a files book left) (λ b. R.leaves b files book left) };

    ghost pays = { λ s files book most prices. MatchEither s (λ a. L.pays a files book most prices) (λ b. R.pays b files book most prices) };

    ghost opens = { λ s name. MatchEither s (λ a. L.opens a name) (λ b. R.opens b name) };

    ghost uses = { λ s number. MatchEither s (λ a. L.uses a number) (λ b. R.uses b number) };

    ghost ready = { λ s files book. MatchEither s (λ a. L.ready a files book) (λ b. R.ready b files book) };

    ghost shows = { λ s files damage. MatchEither s (λ a. L.shows a files damage) (λ b. R.shows b files damage) };

    ghost prints = { λ s files book kind. MatchEither s (λ a. L.prints a files book kind) (λ b. R.prints b files book kind) };

    ghost kept = { λ _. tt };

    ghost keeps = { either_keeps L.opens R.opens L.uses R.uses L.ready R.ready L.leaves R.leaves L.pays R.pays L.prints R.prints L.keeps R.keeps };

    fn next<H: Host, P: PageReader>(
        &mut self,
        host: &mut H,
        pages: &mut P,
        maps: &MapBook,
    ) -> Result<Option<(Key, Partition)>, ReadFault> {
        match self {
            Left(one) => one.next(host, pages, maps),
            Right(other) => other.next(host, pages, maps),
        }
    }
}
