// A page reader that counts its reads.
use sasi_host::{Direct, FileName, Host, HostFault, PageReader};

/// Keeps no page, and counts the pages that it reads.
#[derive(Drop)]
pub struct CountingReader {
    pub pages: u64,
}

impl PageReader for CountingReader {
    ghost keeps = { λ _ _ _ _ _ _. tt };

    ghost covers = { λ _ _. ⊥ };

    ghost agrees = { λ _ _. Unit {0} };

    fn page<H: Host>(
        &mut self,
        host: &mut H,
        file: FileName,
        page: u64,
        out: &mut [u8; 4096],
    ) -> Result<usize, HostFault> {
        self.pages = self.pages.saturating_add(1);
        Direct.page(host, file, page, out)
    }
}
