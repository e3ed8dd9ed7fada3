// The last lines: the most that can pass, and how many functions there are, over the limit and refused.
use pages::Page;
use std::fmt;
use std::fmt::Write;

// The most, and of which functions it is: of those that are not refused, where there are any.
fn put_most(page: &mut Page, most: u64, is_weighted: bool, refused: u64) -> fmt::Result {
    if is_weighted {
        write!(page, "at most weight {most}")?;
    } else {
        write!(page, "at most {most} words")?;
    }
    page.write_str(if refused == 0 {
        " of each function; in a script whose calls nest d deep,"
    } else {
        " of each function that is not refused; where calls of these alone nest d deep,"
    })?;
    page.put(b" up to d times as much\n")
}

// Where all are refused it is not known how much can pass.
pub fn put_sum(
    page: &mut Page,
    limit: Option<u64>,
    is_weighted: bool,
    n: u64,
    over: u64,
    refused: u64,
    most: u64,
) -> fmt::Result {
    if refused != n {
        put_most(page, most, is_weighted, refused)?;
    }
    write!(
        page,
        "{n} {}",
        if n == 1 { "function" } else { "functions" }
    )?;
    if limit.is_some() && refused != n {
        match over {
            0 => page.put(b", none over the limit")?,
            _ => write!(page, ", {over} over the limit")?,
        }
    }
    if refused != 0 {
        write!(page, ", {refused} refused")?;
    }
    page.put(b"\n")
}
