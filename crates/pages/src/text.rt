// Bytes and numbers put on the page.
ghost use Rattle.std.specs.Prelude.{Ok, ◌≡◌, ◌-◌, replicate};
ghost use Rattle.pages.specs.Text.{Puts, PutsNumber, PutsCell};

use crate::page::Page;
use common::inner::put_text;
use std::fmt;
use std::fmt::Write;
use std::io::{Print, Stdout};

impl Page {
    // Nothing is on the page.
    pub fn new(out: Stdout) -> Page {
        Page {
            bytes: io::large_buffer(),
            at: 0,
            out,
        }
    }

    // Writes out what is on the page.
    pub fn finish(&mut self) -> fmt::Result {
        let filled = &self.bytes[..self.at.min(self.bytes.len())];
        let written = self.out.write_all(filled);
        self.at = 0;
        written.map_err(|_| fmt::Error)
    }

    // Text that the page has no room left for: what is there goes out first, and the text by itself where it
    // is longer than the page.
    fn put_over(&mut self, text: &[u8]) -> fmt::Result {
        self.finish()?;
        if self.bytes.len() < text.len() {
            return self.out.write_all(text).map_err(|_| fmt::Error);
        }
        put_text(&mut self.bytes, 0, text);
        self.at = text.len();
        Ok(())
    }

    // An error says that something can't be written.
    pub fn put(&mut self, text: &[u8]) -> fmt::Result
        ensures { Puts self.old text.now self.new result }
    {
        let size = self.bytes.len();
        if size < text.len() || size - text.len() < self.at {
            return self.put_over(text);
        }
        put_text(&mut self.bytes, self.at, text);
        self.at += text.len();
        Ok(())
    }

    // A number in as many digits as it has.
    pub fn number(&mut self, n: u64) -> fmt::Result
        ensures { PutsNumber n self.old self.new result }
    {
        let mut digits = [0u8; 20];
        let k = io::decimal(n, &mut digits);
        self.put(&digits[..k])
    }

    // Blanks for so many of six columns as a number of k digits leaves.
    fn indent(&mut self, k: usize) -> fmt::Result
        ensures { Puts self.old (replicate (6 - k) 32) self.new result }
    {
        let blanks = [b' '; 6];
        self.put(&blanks[..6 - k.min(6)])
    }

    // A number at the right of a column of six, blanks to the left, and what stands behind it; wider where
    // the number has more digits.
    pub fn cell(&mut self, n: u64, after: &[u8]) -> fmt::Result
        ensures { PutsCell n after.now self.old self.new result }
    {
        let mut digits = [0u8; 20];
        let k = io::decimal(n, &mut digits);
        self.indent(k)?;
        self.put(&digits[..k])?;
        self.put(after)
    }
}

impl Write for Page {
    ghost write_str_gives = { λ page text page'. Puts {E = Unit} page text page' (Ok tt) };

    fn write_str(&mut self, s: &str) -> fmt::Result {
        self.put(s.as_bytes())
    }
}
