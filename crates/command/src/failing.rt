// Why a file can't be opened or read.
use std::io::{Cursor, Error, Stderr, Write};

// An error's text, without the system's number for it, which std puts behind the text in parentheses.
fn without_number(text: &[u8]) -> &[u8] {
    match text.iter().position(|b| *b == b'(') {
        Some(n) if n != 0 => text.get(..n - 1).unwrap_or(text),
        _ => text,
    }
}

// Writes a line to standard error: what failed, as the caller names it, a colon and the error's text.
pub fn fail(err: Stderr, name: &[u8], error: Error) {
    let mut text = Cursor::new([0u8; 256]);
    let _ = write!(text, "{error}");
    let n = text.position() as usize;
    let bytes = text.into_inner();
    let _ = Print::write_all(&err, name);
    let _ = Print::write_all(&err, b": ");
    let _ = Print::write_all(&err, without_number(bytes.get(..n).unwrap_or(&bytes)));
    let _ = Print::write_all(&err, b"\n");
}
