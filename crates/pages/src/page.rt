// A page.
use std::io::Stdout;

// The bytes of a page, the first of which are filled, and where it is written out.
#[derive(Drop)]
pub struct Page {
    pub(crate) bytes: [u8; 65536],
    pub(crate) at: usize,
    pub(crate) out: Stdout,
}
