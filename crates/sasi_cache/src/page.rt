// The bytes of a page.
ghost use Rattle.std.specs.Prelude.{◌≡◌, ◌≤◌, length, take, drop};

use std::marker::Model;

// The bytes of a page, as many as the file has there: only its last page has fewer than 4,096.
#[derive(Drop)]
pub struct Page {
    filled: usize,
    bytes: [u8; 4096],
}

impl Model for Page {
    ghost use Rattle.std.specs.Prelude.{◌≤◌, take};
    ghost use Rattle.sasi_host.specs.Names.{Bytes};

    ghost Value = { Bytes };

    ghost view = { λ p. take p.filled p.bytes };

    ghost invariant = { λ p. p.filled ≤ 4096 };
}

impl Page {
    // The page with the first so many of these bytes.
    pub fn new(bytes: &[u8; 4096], filled: usize) -> Page
        requires { filled ≤ 4096 }
        ensures { result ≡ take filled bytes.now }
    {
        Page {
            filled,
            bytes: *bytes,
        }
    }

    // Copies its bytes to the front of the buffer, and gives how many there are.
    pub fn copy_to(&self, out: &mut [u8; 4096]) -> usize
        ensures count { result ≡ length self.now }
        ensures within { result ≤ 4096 }
        ensures front { take result out.new ≡ self.now }
        ensures rest { drop result out.new ≡ drop result out.old }
    {
        let count = self.filled;
        out[..count].copy_from_slice(&self.bytes[..count]);
        count
    }
}
