// The owner's command: a compiled script, and of each of its functions the most words that can pass without
// a service. What is told is `owner::tell`; the arguments, their files and the memory are `command`'s; here
// they meet.
#![tactic(auto)]

use command::asking::{Asked, Instead, argument, read_all};
use command::failing::fail;
use command::loading::{NoWeights, load_script, load_weights};
use command::reading::Unread;
use command::rooms;
use common::Refusal;
use common::numbers::*;
use findings::Script;
use forms::Form;
use pages::Page;
use std::env::Env;
use std::fmt;
use std::fs::Files;
use std::io::Stderr;
use usage::{put_bad_line, put_long_weights, put_unclear, put_usage, put_version};
use wording::Refused;

// What refuses a file.
// Kept: (a) numbers, as `index` answers with a struct of C, `Listed`.
fn refusal_of(number: u64, place: usize) -> Refusal {
    match u8::try_from(number) {
        Ok(UNKNOWN_TAG) => Refusal::UnknownTag(place),
        Ok(SHORT_SLICE) => Refusal::ShortSlice,
        Ok(HEADER_DIFFERS) => Refusal::HeaderDiffers,
        Ok(TOO_DEEP) => Refusal::TooDeep,
        _ => Refusal::MalformedChunk,
    }
}

// A file's functions: their places, and the numbers of those that they stand in.
fn list(bytes: &[u8], places: &mut [u64], keys: &mut [u64]) -> Result<usize, Refusal> {
    let listed = index::list_functions(bytes, places, keys);
    if listed.number != 0 {
        return Err(refusal_of(listed.number, listed.place as usize));
    }
    Ok(listed.functions as usize)
}

// Tells of a script of n bytes in the room for them.
fn tell_bytes(
    room: &mut [u8],
    n: usize,
    form: Form,
    weights: &[u8],
    page: &mut Page,
) -> fmt::Result {
    let mut places = rooms::places();
    let mut keys = rooms::places();
    let n = n.min(room.len());
    match list(&room[..n], &mut places, &mut keys) {
        Ok(k) => {
            let script = Script {
                bytes: &room[..n],
                weights,
                places: &places,
            };
            let k = k.min(keys.len());
            owner::tell(script, form, &mut keys[..k], page)
        }
        Err(refusal) => {
            let is_cut = index::ends_early(room, n);
            let refused = Refused {
                bytes: &room[..n],
                refusal,
                is_cut,
            };
            form.put_refused(page, refused)
        }
    }
}

// Tells of the script that the arguments name.
fn tell_script<R: Env + Files>(
    rt: &R,
    err: Stderr,
    asked: Asked,
    weights: &[u8],
    page: &mut Page,
) -> fmt::Result {
    let mut name = io::buffer();
    let k = argument(rt, asked.named(), &mut name);
    let form = Form {
        file: &name[..k],
        limit: asked.limit,
        is_json: asked.is_json,
        is_weighted: asked.weights.is_some(),
    };
    let mut bytes = rooms::bytes();
    match load_script(rt, asked.file, &mut bytes) {
        Ok(n) => tell_bytes(&mut bytes, n, form, weights, page),
        Err(Unread::Longer) => form.put_too_long(page),
        Err(Unread::Failed(error)) => {
            fail(err, form.file, error);
            Ok(())
        }
    }
}

// Why the weights file that argument i names is not read.
fn tell_unread<E: Env>(
    env: &E,
    err: Stderr,
    i: usize,
    unread: NoWeights,
    page: &mut Page,
) -> fmt::Result {
    let mut name = io::buffer();
    let n = argument(env, i, &mut name);
    match unread {
        NoWeights::BadLine(line) => put_bad_line(page, &name[..n], line.0),
        NoWeights::Unread(Unread::Longer) => put_long_weights(page, &name[..n]),
        NoWeights::Unread(Unread::Failed(error)) => {
            fail(err, &name[..n], error);
            Ok(())
        }
    }
}

// With the weights of the file that the arguments name, or of 1. Where they can't be read nothing more is
// told.
fn tell<R: Env + Files>(rt: &R, err: Stderr, asked: Asked, page: &mut Page) -> fmt::Result {
    let mut weights = rooms::weights();
    if let Some(i) = asked.weights {
        if let Err(unread) = load_weights(rt, i, &mut weights) {
            return tell_unread(rt, err, i, unread, page);
        }
    }
    tell_script(rt, err, asked, &weights, page)
}

// An argument that is not understood.
fn tell_unclear<E: Env>(env: &E, i: usize, page: &mut Page) -> fmt::Result {
    let mut text = io::buffer();
    let n = argument(env, i, &mut text);
    put_unclear(page, &text[..n])
}

fn answer<R: Env + Files>(rt: &R, err: Stderr, page: &mut Page) -> fmt::Result {
    match read_all(rt) {
        Ok(asked) => tell(rt, err, asked, page)?,
        Err(Instead::Usage) => put_usage(page)?,
        Err(Instead::Version) => put_version(page)?,
        Err(Instead::Unclear(i)) => tell_unclear(rt, i, page)?,
    }
    page.finish()
}

fn main(rt: HostRuntime) {
    let mut page = Page::new(rt.stdout());
    if answer(&rt, rt.stderr(), &mut page).is_err() {
        let _ = rt.stderr().write_all(b"lawendeb: could not write\n");
    }
}
