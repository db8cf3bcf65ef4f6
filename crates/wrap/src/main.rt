// Wraps a file of packets for the tunnel: wrap [PAYLOAD SIZE] < FILE > OUTER PACKETS, the report on standard error.
#![tactic(auto)]

use std::process::ExitCode;
use std::rt::Env;

// The payload size without a word.
const USUAL_SIZE: usize = 1400;

// The number of a size that payloads may not have.
const BAD_SIZE: u8 = 18;

// The payload size that the word says, if payloads may have it. No word is longer than the memory for it.
fn size_given<R: Env>(rt: &R) -> Option<usize> {
    if !manners::has_word(rt, 1) {
        return Some(USUAL_SIZE);
    }
    let mut word = [0u8; 131072];
    let length = rt.arg(1, &mut word).ok()?;
    wrapping::size_of(&word[..length])
}

fn main(rt: HostRuntime) -> ExitCode {
    if manners::has_word(&rt, 2) {
        return ExitCode::from(manners::refuse_words(
            &mut rt.stderr(),
            b"wrap: takes one word, the payload size from 64 to 1400: wrap 1400 < packets.ip > outer.op\n",
        ));
    }
    let Some(size) = size_given(&rt) else {
        return ExitCode::from(manners::refuse(&mut rt.stderr(), b"wrap", BAD_SIZE));
    };
    ExitCode::from(manners::run(&rt, b"wrap", |from, to, aside| {
        wrap_stream::copy(size, from, to, aside, &mut [0; 131072])
    }))
}
