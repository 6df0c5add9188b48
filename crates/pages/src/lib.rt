// Text on its way out. It gathers on a page, and a full page is written, so that a long answer takes few writes.
#![tactic(auto)]

ghost use Rattle.std.specs.Prelude.{◌≤◌};

use std::io::{ErrorKind, Result, Write};

const SIZE: usize = 65536;

// Where the text goes, the page, how many of its bytes are filled, and whether each write so far took all that it was given.
#[derive(Drop)]
pub struct Pen<W> {
    out: W,
    page: [u8; SIZE],
    at: usize,
    fine: bool,
    ghost fits: { at ≤ 65536 },
}

impl<W: Write> Pen<W> {
    pub fn new(out: W) -> Pen<W> {
        Pen {
            out,
            page: [0; SIZE],
            at: 0,
            fine: true,
        }
    }

    // Writes the first bytes of the page, as many as are filled, and begins it anew. Where that fails, the pages after it are tried all the same.
    fn put_out(&mut self) {
        let at = self.at;
        self.at = 0;
        let is_written = self.out.write_all(&self.page[..at]).is_ok();
        self.fine = self.fine && is_written;
    }

    // Writes what the page still holds, and tells whether all that was put on it went out.
    pub fn finish(&mut self) -> Result<()> {
        self.put_out();
        if self.fine {
            Ok(())
        } else {
            Err(ErrorKind::Other.into())
        }
    }
}

impl<W: Write> Write for Pen<W> {
    fn write(&mut self, bytes: &[u8]) -> Result<usize> {
        if self.at == SIZE {
            self.put_out();
        }
        let at = self.at;
        let n = bytes.len().min(SIZE - at);
        self.page[at..at + n].copy_from_slice(&bytes[..n]);
        self.at = at + n;
        Ok(n)
    }

    fn flush(&mut self) -> Result<()> {
        self.finish()?;
        self.out.flush()
    }
}
