// Wraps each stored file that the arguments name, each behind the word for its payload size, twice: through a block of one of the longest records, and through a
// large one. Prints the outer packets, then the report and the status.
#![tactic(auto)]

use std::io;
use std::io::Write;
use std::rt::{Env, Files};

// Through a block of one of the longest records, and through a large one.
fn run<R: Files + Eprint, W: Write>(rt: &R, to: &mut W, name: &str, word: &str) {
    // where the word is no size, one that payloads may not have
    let size = wrapping::size_of(word.as_bytes()).unwrap_or(0);
    samples::print_both(
        rt,
        to,
        Some(word),
        name,
        1504,
        |file, to| wrap_stream::copy_slowly(size, file, to, &mut io::sink(), &mut [0; 1504]),
        |file, to| wrap_stream::copy_slowly(size, file, &mut io::sink(), to, &mut [0; 1504]),
    );
    samples::print_both(
        rt,
        to,
        Some(word),
        name,
        131072,
        |file, to| wrap_stream::copy(size, file, to, &mut io::sink(), &mut [0; 131072]),
        |file, to| wrap_stream::copy(size, file, &mut io::sink(), to, &mut [0; 131072]),
    );
}

// The file that one argument names, with the size that another says; none where there is none.
fn run_named<R: Env + Files + Eprint, W: Write>(
    rt: &R,
    to: &mut W,
    size: usize,
    file: usize,
) -> Option<()> {
    let mut of_size = [0u8; 4096];
    let mut of_file = [0u8; 4096];
    let word = samples::named(rt, size, &mut of_size)?;
    let name = samples::named(rt, file, &mut of_file)?;
    run(rt, to, name, word);
    Some(())
}

fn main(rt: HostRuntime) {
    let mut to = rt.stdout();
    for pair in 0..128 {
        if run_named(&rt, &mut to, 2 * pair + 1, 2 * pair + 2).is_none() {
            break;
        }
    }
}
