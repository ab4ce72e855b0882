// The modes of indexes.
ghost use Rattle.std.specs.Prelude.{◌≡◌};
ghost use Rattle.sasi_types.specs.Codes.{mode_code};

/// The mode of an index: which patterns it finds, and how its file keeps the pairs of a term.
#[derive(Clone, Copy, Debug, PartialEq, Eq)]
pub enum Mode {
    Prefix,
    Contains,
    Sparse,
}

impl Mode {
    /// Its number in files.
    pub fn code(self) -> u8
        ensures { result ≡ mode_code self }
    {
        match self {
            Mode::Prefix => 0,
            Mode::Contains => 1,
            Mode::Sparse => 2,
        }
    }
}
