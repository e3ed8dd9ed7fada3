// The longest run, a row for the words that stand together on a line of the source.
use found::{Run, Way, landing};
use pages::Page;
use std::fmt;
use std::fmt::Write;
use wording::Place;

// How the run goes on from its word i, which ends a row, by the way w.
fn put_way(page: &mut Page, run: Run, i: usize, w: Way) -> fmt::Result {
    let p = run.word(i);
    let more = run.remains_behind(i);
    match w {
        Way::Straight => Ok(()),
        Way::Branch(other) => {
            let place = Place(run, landing(run.words, other));
            let length = run.length(other);
            write!(
                page,
                "goes on with {more} more; the other way ({place}) has {length}"
            )
        }
        Way::Turn(back) => {
            let place = Place(run, back);
            write!(
                page,
                "goes on with {more} more; the other way goes back to {place}"
            )
        }
        Way::Returns => write!(page, "to word {p}, which returns"),
        Way::Back(back) => write!(page, "to word {p}, which goes back to {}", Place(run, back)),
    }
}

// What there is to say of a row: where the run starts, that it calls, how it goes on.
fn put_note(page: &mut Page, run: Run, from: usize, last: usize) -> fmt::Result {
    let is_calling = run.has_call(from, last);
    let w = run.way_behind(last);
    if from == 0 {
        write!(page, " from word {}", run.word(0))?;
    }
    if is_calling {
        page.write_str(if from == 0 { "; calls" } else { " calls" })?;
    }
    if let Way::Straight = w {
        return Ok(());
    }
    page.write_str(if from == 0 || is_calling { "; " } else { " " })?;
    put_way(page, run, last, w)
}

// A row, from one of the run's words to another: where it stands, its line or the number of its first word,
// how much of the run it is, and a note.
fn put_row(page: &mut Page, run: Run, from: usize, last: usize) -> fmt::Result {
    let p = run.word(from);
    match run.line(p) {
        Some(line) => page.cell(line as u64, b" |")?,
        None => {
            page.put(b"word ")?;
            page.cell(p as u64, b" |")?;
        }
    }
    page.cell(run.part(from, last) as u64, b" |")?;
    put_note(page, run, from, last)?;
    page.put(b"\n")
}

// The rows of a function's longest run.
pub fn put_rows(page: &mut Page, run: Run) -> fmt::Result {
    let mut from = 0;
    while from < run.path.len() {
        let last = run.row_end(from);
        put_row(page, run, from, last)?;
        from = last + 1;
    }
    Ok(())
}
