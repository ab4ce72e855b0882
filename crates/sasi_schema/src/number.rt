// The numbers of columns.
ghost use Rattle.std.specs.Prelude.{◌≡◌, ◌<◌};
ghost use Rattle.sasi_model.specs.Abbreviations.{COLUMN_LIMIT as column_limit};
ghost use Rattle.sasi_model.specs.State.{number_at};

/// The number of the column at a position: 0 for the key, and the others from 1, without the key.
pub fn number_at(key: u16, position: u16) -> u16
    requires { position < column_limit }
    ensures { result ≡ number_at key position }
{
    if position == key {
        0
    } else if position < key {
        position + 1
    } else {
        position
    }
}
