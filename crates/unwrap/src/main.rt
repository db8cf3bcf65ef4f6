// Unwraps a file of outer packets: unwrap < FILE > PACKETS, the report on standard error.
#![tactic(auto)]

use std::process::ExitCode;

fn main(rt: HostRuntime) -> ExitCode {
    let status = manners::run_wordless(
        &rt,
        b"unwrap",
        b"unwrap: takes no words; put < before a file's name: unwrap < outer.op > packets.ip\n",
        |from, to, aside| unwrap_stream::copy(from, to, aside, &mut [0; 131072]),
    );
    ExitCode::from(status)
}
