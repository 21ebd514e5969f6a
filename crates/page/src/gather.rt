// Text that is gathered in a page from its start on. What does not fit is left out. The page is fixed memory: a `BufWriter` would want
// room on the heap, and can fail; the string of the kit's `arrayvec` takes a text whole or not at all.
ghost use Rattle.page.specs.Page.{OnPage};

use std::fmt::{Display, Write};
use std::{fmt, io};

const SIZE: usize = 65536;

// More than any line has.
const LONGEST: usize = 512;

#[derive(Drop)]
pub(crate) struct Page {
    bytes: [u8; SIZE],
    len: usize,
    ghost fits: { OnPage len },
}

impl Page {
    pub(crate) fn new() -> Self {
        Page {
            bytes: [0; SIZE],
            len: 0,
        }
    }

    pub(crate) fn len(&self) -> usize
        ensures { OnPage result }
    {
        self.len
    }

    // Whether another line might not fit.
    pub(crate) fn is_full(&self) -> bool {
        self.len > SIZE - LONGEST
    }

    // Writes what was gathered, and begins again.
    pub(crate) fn flush<P: Print>(&mut self, to: &P) -> io::Result<()> {
        to.write_all(&self.bytes[..self.len])?;
        self.len = 0;
        Ok(())
    }

    // Blanks up to a column.
    pub(crate) fn blanks_to(&mut self, column: usize) {
        let end = column.min(SIZE);
        if self.len < end {
            self.bytes[self.len..end].fill(b' ');
            self.len = end;
        }
    }

    // What `write!` calls. It answers nothing, since a page takes every text: `write_str` below never fails.
    pub(crate) fn write_fmt<D: Display + Drop>(&mut self, text: D) {
        let _ = self.write(text);
    }
}

impl Write for Page {
    // At once: a line has a dozen pieces, and most have some bytes.
    fn write_str(&mut self, text: &str) -> fmt::Result {
        let n = text.len().min(SIZE - self.len);
        let end = self.len + n;
        self.bytes[self.len..end].copy_from_slice(&text.as_bytes()[..n]);
        self.len = end;
        Ok(())
    }
}
