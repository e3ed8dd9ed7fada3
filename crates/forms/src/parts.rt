// Each part of what is told, as text or as JSON.
use found::{Function, Run};
use pages::Page;
use reports::put_title;
use rows::put_rows;
use std::fmt;
use wording::Refused;

// What is told of by a file's name, and how.
#[derive(Clone, Copy)]
pub struct Form<'a> {
    pub file: &'a [u8],
    pub limit: Option<u64>,
    // Kept: (d) a trait would have these methods once more for each form, one of them empty for text.
    pub is_json: bool,
    pub is_weighted: bool,
}

impl Form<'_> {
    // What stands before all functions.
    pub fn put_head(self, page: &mut Page, source: Option<&[u8]>) -> fmt::Result {
        if self.is_json {
            json_text::put_head(page, self.file, source, self.limit, self.is_weighted)
        } else {
            Ok(())
        }
    }

    // A line of a function.
    pub fn put_title(self, page: &mut Page, source: Option<&[u8]>, f: Function) -> fmt::Result {
        put_title(page, self.file, source, f, self.limit, self.is_weighted)
    }

    // A function, with its words.
    pub fn put_function(
        self,
        page: &mut Page,
        source: Option<&[u8]>,
        f: Function,
        run: Run,
    ) -> fmt::Result {
        if self.is_json {
            return json_text::put_function(page, f, run);
        }
        self.put_title(page, source, f)?;
        if self.limit.is_some() {
            put_rows(page, run)?;
        }
        Ok(())
    }

    // The last lines: the most that can pass, and how many functions there are, over the limit and refused.
    pub fn put_sum(
        self,
        page: &mut Page,
        n: u64,
        over: u64,
        refused: u64,
        most: u64,
    ) -> fmt::Result {
        if self.is_json {
            json_text::put_sum(page, n, over, refused, most)
        } else {
            reports::put_sum(page, self.limit, self.is_weighted, n, over, refused, most)
        }
    }

    // A file that is refused: the only line. Whether its bytes end early counts where the number is 15.
    pub fn put_refused(self, page: &mut Page, refused: Refused) -> fmt::Result {
        if self.is_json {
            json_text::put_refused_file(page, self.file, refused)
        } else {
            reports::put_refused(page, self.file, refused)
        }
    }

    // A file that is longer than the room for it.
    pub fn put_too_long(self, page: &mut Page) -> fmt::Result {
        if self.is_json {
            json_text::put_too_long(page, self.file)
        } else {
            reports::put_too_long(page, self.file)
        }
    }
}
