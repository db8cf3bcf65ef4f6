// Runs what the program `write` does on each stored text that the arguments name, the reasons on standard output too, and the status.
#![tactic(auto)]

use std::io::{Stdout, Write};
use std::rt::Files;

// The answer to the text of a file.
fn run<R: Files + Eprint>(rt: &R, out: Stdout, name: &str) {
    let mut to = out;
    samples::say(&mut to, name.as_bytes());
    samples::say(&mut to, b"\n");
    let mut file = samples::opened(rt, name);
    if file.is_open() {
        let mut reasons = out;
        let ending = replies::reply(&mut file, &mut to, &mut reasons);
        samples::say(&mut to, b"\n");
        samples::end(&mut to, ending);
    }
}

fn main(rt: HostRuntime) {
    samples::each(&rt, |name| run(&rt, rt.stdout(), name));
}
