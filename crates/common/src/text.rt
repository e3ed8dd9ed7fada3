// Bytes put on a page.
ghost use Rattle.std.specs.Prelude.{◌≡◌, ◌+◌, ◌≤◌, length};
ghost use Rattle.common.specs.Lists.{put};

// Puts text from index at on.
#[tactic(auto, unfolding(crate::specs::Lists::put))]
pub fn put_text(page: &mut [u8], at: usize, text: &[u8])
    requires { at + length text.now ≤ length page.old }
    ensures { page.new ≡ put page.old at text.now }
{
    page[at..at + text.len()].copy_from_slice(text);
}
