// The line that names a function.
use found::{Function, Longest};
use pages::Page;
use std::fmt;
use std::fmt::Write;
use wording::{Number, Reason, name_in, put_name};

// The function's source, its lines there and its number; of a stripped file, by the file's name. The main
// function has no lines of its own.
fn put_names(page: &mut Page, file: &[u8], source: Option<&[u8]>, f: Function) -> fmt::Result {
    let (k, first, last) = (f.k, f.first_line, f.last_line);
    let Some(source) = source else {
        put_name(page, file)?;
        write!(page, ": function {k}")?;
        if last != 0 {
            write!(page, " (lines {first} to {last})")?;
        }
        return Ok(());
    };
    match name_in(source) {
        Some(name) => put_name(page, name)?,
        None => page.put(b"[string]")?,
    }
    if last != 0 {
        write!(page, ":{first}-{last}")?;
    }
    write!(page, ": function {k}")
}

// The longest run, in words or by weights, and the limit where there is one.
fn put_longest(
    page: &mut Page,
    longest: Longest,
    limit: Option<u64>,
    is_weighted: bool,
) -> fmt::Result {
    let n = longest.longest;
    if is_weighted {
        write!(page, ": weight {n} without a service")?;
    } else {
        write!(page, ": {n} words without a service")?;
    }
    if let Some(limit) = limit {
        write!(page, ", limit {limit}")?;
    }
    page.put(b"\n")
}

// A function's name, and what the longest run is or why the function is refused.
pub fn put_title(
    page: &mut Page,
    file: &[u8],
    source: Option<&[u8]>,
    f: Function,
    limit: Option<u64>,
    is_weighted: bool,
) -> fmt::Result {
    put_names(page, file, source, f)?;
    match f.run {
        Ok(longest) => put_longest(page, longest, limit, is_weighted),
        Err(refusal) => write!(page, ": refused: {}{}\n", Reason(refusal), Number(refusal)),
    }
}
