// Where a script is read from.
ghost use Rattle.std.specs.Prelude.{◌<◌, length};
ghost use Rattle.std.specs.Io.{ReadsAtMost};
ghost use Rattle.std.specs.Io.KnownBytes.{ReadConsumes};
ghost use Rattle.sasi_host.specs.View.{SourceView, SourceCauses};

use crate::Failed;

/// Where a script is read from.
pub trait Source {
    /// What contracts see of it.
    ghost view: { Self → SourceView };

    /// Reads the next bytes; Ok(0) is the end. An I/O error consumes nothing.
    fn read(&mut self, buf: &mut [u8]) -> Result<usize, Failed>
        requires { 0 < length buf.old }
        ensures bound { ReadsAtMost result buf.new }
        ensures bytes { ReadConsumes (view self.old).left (view self.new).left result buf.new }
        ensures causes { SourceCauses (view self.old) (view self.new) result };
}
