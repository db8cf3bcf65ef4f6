// Prints what a recorded log says, each refusal with the field at fault, and what is wrong with a chunk: explain < FILE
#![tactic(auto)]

use std::process::ExitCode;

fn main(rt: HostRuntime) -> ExitCode {
    let status = manners::run_wordless(
        &rt,
        b"explain",
        b"explain: takes no words; put < before a file's name: explain < my.log\n",
        |from, to, _| explain_stream::copy(from, to, &mut [0; 131072]),
    );
    ExitCode::from(status)
}
