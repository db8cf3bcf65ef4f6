// Writes the segments of a list as a log, from a line on standard input: echo "this LISTING IN HEX" | write
#![tactic(auto)]

use std::process::ExitCode;

fn main(rt: HostRuntime) -> ExitCode {
    let status = manners::run_wordless(
        &rt,
        b"write",
        b"write: takes no words; the line comes on standard input: echo \"this LISTING IN HEX\" | write\n",
        |from, to, aside| replies::reply(from, to, aside),
    );
    ExitCode::from(status)
}
