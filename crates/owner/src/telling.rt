// All that is told of a compiled script.
use findings::{Key, Rooms, Script};
use forms::Form;
use found::Function;
use pages::Page;
use std::fmt;

// How many of the functions that were told of are over the limit, and refused.
#[derive(Clone, Copy)]
struct Tally {
    over: u64,
    refused: u64,
}

impl Tally {
    fn with(self, f: Function, limit: Option<u64>) -> Tally {
        match (f.run, limit) {
            (Err(_), _) => Tally {
                refused: self.refused.saturating_add(1),
                ..self
            },
            (Ok(run), Some(limit)) if limit < run.longest => Tally {
                over: self.over.saturating_add(1),
                ..self
            },
            _ => self,
        }
    }
}

// Tells of the function of a key: the function, if anything is told. In text without a limit it is a line of
// its own, for which the head is enough; with a limit those over it alone are told, with their runs. One that
// is refused is told with why.
fn tell_one(
    script: Script,
    form: Form,
    source: Option<&[u8]>,
    key: Key,
    rooms: &mut Rooms,
    page: &mut Page,
) -> Result<Option<Function>, fmt::Error> {
    if !form.is_json && !key.is_refused() {
        let Some(limit) = form.limit else {
            let f = script.brief(key);
            form.put_title(page, source, f)?;
            return Ok(Some(f));
        };
        if key.longest() <= limit {
            return Ok(None);
        }
    }
    let f = script.load(key, rooms);
    let count = f.run.map_or(0, |run| run.count);
    form.put_function(page, source, f, rooms.run(f.words, count))?;
    Ok(Some(f))
}

// Tells of a file's functions, the longest run first, and in the end how many they are. The script's places
// are those that `index::list_functions` gives, the keys the numbers of those that they stand in.
pub fn tell(script: Script, form: Form, keys: &mut [u64], page: &mut Page) -> fmt::Result {
    let mut rooms = Rooms::new();
    script.order_all(keys, &mut rooms);
    let mut tally = Tally {
        over: 0,
        refused: 0,
    };
    let source = script.source();
    form.put_head(page, source)?;
    for key in keys.iter() {
        if let Some(f) = tell_one(script, form, source, Key(*key), &mut rooms, page)? {
            tally = tally.with(f, form.limit);
        }
    }
    let most = keys.first().map_or(0, |key| Key(*key).longest());
    form.put_sum(page, keys.len() as u64, tally.over, tally.refused, most)
}
