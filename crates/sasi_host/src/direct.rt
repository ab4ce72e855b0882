// Pages that are read each time.

use crate::{Failed, FileName, Host, HostFault, PageReader};

/// The reader without a cache. It agrees with all files.
#[derive(Clone, Copy, Debug)]
pub struct Direct;

impl PageReader for Direct {
    ghost agrees = { λ _ _. Unit {0} };

    ghost covers = { λ _ _. ⊥ };

    ghost keeps = { λ _ _ _ _ _ _. tt };

    fn page<H: Host>(
        &mut self,
        host: &mut H,
        file: FileName,
        page: u64,
        out: &mut [u8; 4096],
    ) -> Result<usize, HostFault> {
        match host.read(file, page * 4096, out) {
            Ok(count) => Ok(count),
            Err(Failed) => Err(HostFault::Failed),
        }
    }
}
