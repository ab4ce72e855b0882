// Where a scan stands.
ghost use Rattle.std.specs.Prelude.{◌≡◌, ◌+◌, ◌≤◌, ◌<◌, ◌^◌, ◌⊎◌, ◌==◌, nat_lt, IsTrue, false, if◌then◌else◌};

// The page of a term block, and the index of an entry in it.
#[derive(Clone, Copy)]
pub struct Position {
    pub page: u64,
    pub index: usize,
}

// The position of the entry with this index in a block of so many: the next block, where this one has no such entry.
pub fn position_in(page: u64, index: usize, count: usize) -> Position
    requires { page < 2 ^ 50 }
    ensures page { result.page ≡ (if nat_lt index count then page else page + 1) }
    ensures later { page ≤ result.page }
    ensures index { result.index ≡ (if nat_lt index count then index else 0) }
{
    if index < count {
        return Position { page, index };
    }
    Position {
        page: page + 1,
        index: 0,
    }
}
