// The same for scripts and editors: one object a line.
use common::Refusal;
use found::{Function, Longest, Run};
use pages::Page;
use std::fmt;
use std::fmt::Write;
use steps::lua54::successors::successors;
use sweep::edges::Successors;
use wording::{Reason, Refused, Why, name_in};

// Text between quotes. A byte that can't stand for itself there is escaped.
fn put_string(page: &mut Page, text: &[u8]) -> fmt::Result {
    page.put(b"\"")?;
    for b in text {
        match *b {
            0..=31 | b'"' | b'\\' => write!(page, "\\u{b:04x}")?,
            plain => page.put(&[plain])?,
        }
    }
    page.put(b"\"")
}

fn put_source(page: &mut Page, source: Option<&[u8]>) -> fmt::Result {
    match source.and_then(name_in) {
        Some(name) => put_string(page, name),
        None => page.put(b"null"),
    }
}

// Numbers with commas between them.
fn put_numbers(page: &mut Page, list: &[u32]) -> fmt::Result {
    for (i, n) in list.iter().enumerate() {
        if i != 0 {
            page.put(b",")?;
        }
        page.number(*n as u64)?;
    }
    Ok(())
}

// The words that can follow word p, between brackets.
fn put_next(page: &mut Page, words: &[u32], p: usize) -> fmt::Result {
    match successors(words, p) {
        Successors::Invalid | Successors::Stop => page.put(b"[]"),
        Successors::One(q) => write!(page, "[{q}]"),
        Successors::Two(q, r) => write!(page, "[{q},{r}]"),
    }
}

fn put_all_steps(page: &mut Page, words: &[u32]) -> fmt::Result {
    for p in 0..words.len() {
        if p != 0 {
            page.put(b",")?;
        }
        put_next(page, words, p)?;
    }
    Ok(())
}

fn put_file(page: &mut Page, file: &[u8]) -> fmt::Result {
    page.put(b"{\"file\":")?;
    put_string(page, file)
}

// Which file and source the objects behind it are about.
pub fn put_head(
    page: &mut Page,
    file: &[u8],
    source: Option<&[u8]>,
    limit: Option<u64>,
    is_weighted: bool,
) -> fmt::Result {
    put_file(page, file)?;
    page.put(b",\"source\":")?;
    put_source(page, source)?;
    write!(page, ",\"weighted\":{is_weighted}")?;
    if let Some(limit) = limit {
        write!(page, ",\"limit\":{limit}")?;
    }
    page.put(b"}\n")
}

// The function's number, the one that it stands in, its lines and words.
fn put_which(page: &mut Page, f: Function) -> fmt::Result {
    write!(page, "{{\"function\":{}", f.k)?;
    if f.k != 0 {
        write!(page, ",\"in\":{}", f.parent)?;
    }
    write!(page, ",\"first\":{},\"last\":{}", f.first_line, f.last_line)?;
    write!(page, ",\"words\":{}", f.words)
}

fn put_run(page: &mut Page, longest: Longest, run: Run) -> fmt::Result {
    write!(
        page,
        ",\"longest\":{},\"start\":{}",
        longest.longest, longest.start
    )?;
    page.put(b",\"path\":[")?;
    put_numbers(page, run.path)?;
    page.put(b"],\"lines\":[")?;
    put_numbers(page, run.lines)?;
    page.put(b"],\"lengths\":[")?;
    put_numbers(page, run.lengths)?;
    page.put(b"],\"next\":[")?;
    put_all_steps(page, run.words)?;
    page.put(b"]}\n")
}

fn put_refusal(page: &mut Page, refusal: Refusal) -> fmt::Result {
    let (number, place) = (refusal.number(), refusal.place());
    write!(page, ",\"refused\":{number},\"place\":{place},\"says\":\"")
}

// A function, with all its words; or why it is refused.
pub fn put_function(page: &mut Page, f: Function, run: Run) -> fmt::Result {
    put_which(page, f)?;
    match f.run {
        Ok(longest) => put_run(page, longest, run),
        Err(refusal) => {
            put_refusal(page, refusal)?;
            write!(page, "{}\"}}\n", Reason(refusal))
        }
    }
}

// A file that is refused.
pub fn put_refused_file(page: &mut Page, file: &[u8], refused: Refused) -> fmt::Result {
    put_file(page, file)?;
    put_refusal(page, refused.refusal)?;
    write!(page, "{}\"}}\n", Why(refused))
}

// A file that is too long.
pub fn put_too_long(page: &mut Page, file: &[u8]) -> fmt::Result {
    put_file(page, file)?;
    put_refusal(page, Refusal::MalformedChunk)?;
    page.put(b"longer than 4 MiB\"}\n")
}

// The last object: how many functions there are, how many are over the limit and refused, and the
// most that can pass in one that is not refused, absent where all are.
pub fn put_sum(page: &mut Page, functions: u64, over: u64, refused: u64, most: u64) -> fmt::Result {
    write!(page, "{{\"functions\":{functions}")?;
    if refused != functions {
        write!(page, ",\"most\":{most}")?;
    }
    write!(page, ",\"over\":{over},\"refused\":{refused}}}\n")
}
