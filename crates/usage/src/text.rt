// How the program is used, and which one it is.
use pages::Page;
use std::fmt;
use std::fmt::Write;
use wording::put_name;

// `--html` is for the script before this program.
pub fn put_usage(page: &mut Page) -> fmt::Result {
    page.put(
        b"lawendeb [--limit N] [--weights FILE] [--json | --html] [--name NAME] FILE\n\
          tells of each function of a compiled Lua 5.4 script the most words (instructions) that can\n\
          pass without a service of the motors: without a step that goes back.\n\n",
    )?;
    // What is counted.
    page.put(
        b"  --limit N       only the functions with more than N, and line by line how they get there\n\
          \x20 --weights FILE  a line as `CONCAT 40` for each opcode that does not weigh 1, up to 255\n",
    )?;
    // How it is told.
    page.put(
        b"  --json          one object a line\n\
          \x20 --html          a page of the source (needs python3)\n\
          \x20 --name NAME     tells of FILE by this name\n\
          \x20 --version       which release this is\n\n",
    )?;
    page.put(
        b"FILE is what `luac -o FILE SCRIPT.lua` writes, up to 4 MiB; `-s` strips it of its lines.\n",
    )
}

pub fn put_version(page: &mut Page) -> fmt::Result {
    page.put(
        b"lawendeb, release 5, for Lua 5.4; proved with rattle-kit-5b-plain, logic 097e4c862dff5811\n",
    )
}

// An argument that is not understood.
pub fn put_unclear(page: &mut Page, text: &[u8]) -> fmt::Result {
    page.put(b"refused: this argument is not understood: ")?;
    put_name(page, text)?;
    page.put(b" (see lawendeb --help)\n")
}

fn put_which(page: &mut Page, name: &[u8]) -> fmt::Result {
    page.put(b"refused: ")?;
    put_name(page, name)
}

// A line of a weights file that can't be read.
pub fn put_bad_line(page: &mut Page, name: &[u8], line: usize) -> fmt::Result {
    put_which(page, name)?;
    write!(
        page,
        ": line {line} is no opcode's name and a weight from 1 to 255 (18)\n"
    )
}

// A weights file that is too long.
pub fn put_long_weights(page: &mut Page, name: &[u8]) -> fmt::Result {
    put_which(page, name)?;
    page.put(b": longer than 64 KiB (18)\n")
}
