// Names of files, in the order in which a folder lists them.
ghost use Rattle.std.specs.Prelude.{◌≡◌};
ghost use Rattle.std.proofs.Common.{rules};
ghost use Rattle.std.specs.Cmp.{partial_order_from_own_ties, partial_order_from_total};
ghost use Rattle.std.specs.Cmp.Rules.{comparing};
ghost use Rattle.std.specs.Ordering.{as_partial_cmp};
ghost use Rattle.sasi_host.specs.Names.{data_name, log_name, manifest_name, name_cmp, name_eq, plain_name, rank, seal_name};
ghost use Rattle.sasi_host.specs.NameLaws.{names_total};

use std::cmp::Ordering;

/// The kind of a file of the folder.
#[derive(Clone, Copy, Debug)]
pub enum Kind {
    /// The list of the tables and their files.
    Manifest,
    /// An empty file that tells that a manifest is whole.
    Seal,
    /// A segment of the commit log.
    Log,
    /// A data file of a table.
    Data,
    /// An index file that goes with a data file.
    Index,
    /// A sorted run of the postings that are gathered for an index file.
    Segment,
}

impl Kind {
    /// Its rank in the order of names.
    pub fn rank(self) -> u8
        ensures { result ≡ rank self }
    {
        match self {
            Kind::Manifest => 0,
            Kind::Seal => 1,
            Kind::Log => 2,
            Kind::Data => 3,
            Kind::Index => 4,
            Kind::Segment => 5,
        }
    }
}

/// The name of a file. `index` and `part` are 0 but for an index and a segment.
#[derive(Clone, Copy, Debug)]
pub struct FileName {
    pub kind: Kind,
    pub number: u32,
    pub index: u32,
    pub part: u32,
}

/// The number of a manifest and of its seal, from 1.
pub type ManifestNumber = u32;

/// The number of a segment of the commit log, from 1.
pub type SegmentNumber = u32;

/// The number of a data file, from 1.
pub type DataNumber = u32;

impl FileName {
    /// The manifest of this number.
    pub fn manifest(number: ManifestNumber) -> FileName
        ensures { result ≡ manifest_name number }
    {
        plain(Kind::Manifest, number)
    }

    /// The seal of this number: an empty file that tells that the manifest is whole.
    pub fn seal(number: ManifestNumber) -> FileName
        ensures { result ≡ seal_name number }
    {
        plain(Kind::Seal, number)
    }

    /// The segment of the commit log with this number.
    pub fn log(number: SegmentNumber) -> FileName
        ensures { result ≡ log_name number }
    {
        plain(Kind::Log, number)
    }

    /// The data file with this number.
    pub fn data(number: DataNumber) -> FileName
        ensures { result ≡ data_name number }
    {
        plain(Kind::Data, number)
    }
}

// The file of this kind and number, which is no part of an index.
fn plain(kind: Kind, number: u32) -> FileName
    ensures { result ≡ plain_name kind number }
{
    FileName {
        kind,
        number,
        index: 0,
        part: 0,
    }
}

impl PartialEq for FileName {
    ghost eq = { name_eq };

    ghost laws = { Prim.search (comparing, rules) };

    fn eq(&self, other: &FileName) -> bool {
        self.kind.rank() == other.kind.rank()
            && self.number == other.number
            && self.index == other.index
            && self.part == other.part
    }
}

impl Eq for FileName {
    ghost laws = { Prim.search (comparing, rules) };
}

impl Ord for FileName {
    ghost cmp = { name_cmp };

    ghost total = { Prim.search (comparing, rules) };

    ghost matches_partial_cmp = { Prim.search (comparing, rules) };

    ghost matches_eq = { Prim.search (comparing, rules) };

    fn cmp(&self, other: &FileName) -> Ordering {
        let kinds = self.kind.rank().cmp(&other.kind.rank());
        let numbers = self.number.cmp(&other.number);
        let indexes = self.index.cmp(&other.index);
        let parts = self.part.cmp(&other.part);
        kinds.then(numbers.then(indexes.then(parts)))
    }
}

impl PartialOrd for FileName {
    ghost partial_cmp = { as_partial_cmp name_cmp };

    ghost laws = { partial_order_from_own_ties (partial_order_from_total names_total) (Prim.search (comparing, rules)) };

    fn partial_cmp(&self, other: &FileName) -> Option<Ordering> {
        Some(self.cmp(other))
    }
}
