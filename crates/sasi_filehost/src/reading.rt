// Reading a file from an offset on.
ghost use Rattle.std.specs.Prelude.{◌≤◌, length, IfOk};

use std::io;
use std::os::unix::fs::FileExt;

/// Fills the buffer from this offset on, as far as the file reaches. A read that the system cuts short is gone on with, and one
/// that a signal interrupts is tried again.
pub fn fill_at<F: FileExt>(file: &F, at: u64, buf: &mut [u8]) -> io::Result<usize>
    ensures { IfOk result (λ count. count ≤ length buf.old) }
{
    let mut done = 0;
    for _ in 0..u64::MAX {
        if done == buf.len() {
            break;
        }
        match file.read_at(&mut buf[done..], at.saturating_add(done as u64)) {
            Ok(0) => break,
            Ok(count) => done += count,
            Err(error) if error.kind() == io::ErrorKind::Interrupted => {}
            Err(error) => return Err(error),
        }
    }
    Ok(done)
}
