// A gathering that is filled in its order.
ghost use Rattle.std.specs.Prelude.{◌≡◌, OnOk, []};
ghost use Rattle.std.specs.declared.cmp.Ordering.TheVariants.{Less};
ghost use Rattle.sasi_segments.specs.Postings.{posting_cmp};
ghost use Rattle.sasi_segments.specs.Sorting.{inserted};
ghost use Rattle.sasi_indexwrite.specs.TermsSoFar.{AreUpTo, IsPosting};

use sasi_host::ReadFault;
use sasi_segments::{Gather, Posting};
use sasi_types::{ListKind, Pair, Term};
use std::alloc::{AllocError, Global};
use std::cmp::Ordering;

/// A posting below those that are added.
pub fn lowest(alloc: Global) -> Posting
    ensures { AreUpTo [] result }
{
    Posting {
        list: ListKind::Stored,
        term: Term::new(Vec::new(alloc)),
        pair: Pair { token: 0, place: 0 },
    }
}

// The next posting is above the last one, and can be gathered.
fn check(last: &Posting, next: &Posting) -> Result<(), ReadFault>
    ensures above { OnOk result (posting_cmp last.now next.now ≡ Less) }
    ensures one { OnOk result (IsPosting next.now) }
{
    if last.cmp(next) != Ordering::Less {
        return Err(ReadFault::Failed);
    }
    if next.term.bytes().len() > 1024 || next.list != ListKind::Stored {
        return Err(ReadFault::Failed);
    }
    Ok(())
}

fn put(gather: &mut Gather, next: &Posting) -> Result<(), AllocError>
    requires { IsPosting next.now }
    ensures { OnOk result (gather.new.postings ≡ inserted posting_cmp next.now gather.old.postings) }
{
    gather.add(next.term.bytes(), next.list, next.pair)
}

/// Adds the posting of a term, which is to be above the last one.
pub fn add(
    alloc: Global,
    gather: &mut Gather,
    last: &mut Posting,
    term: &[u8],
    pair: Pair,
) -> Result<(), ReadFault>
    requires { AreUpTo gather.old.postings last.old }
    ensures { OnOk result (AreUpTo gather.new.postings last.new) }
{
    let term = Term::new(term.to_vec(alloc)?);
    let next = Posting {
        list: ListKind::Stored,
        term,
        pair,
    };
    check(last, &next)?;
    put(gather, &next)?;
    *last = next;
    Ok(())
}
