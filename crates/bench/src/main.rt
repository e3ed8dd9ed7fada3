// The bench program: a sheet on standard input, the listing or the refusal on standard output, and
// nothing else. What it writes for what it reads is `listing::answer`, which is proved;
// here are the reads and the write.
#![tactic(auto)]

fn main(rt: HostRuntime) {
    // `listing::answer` takes a buffer of this size and no other, and promises that what it
    // holds of an input decides.
    let mut buffer = io::large_buffer();
    let n = input::read_full(&mut rt.stdin(), &mut buffer);
    let mut page = listing::page();
    let r = listing::answer(&buffer, n, &mut page);
    let _ = rt.write_all(&page[..r]);
}
