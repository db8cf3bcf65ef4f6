// Prints what a recorded log says, record by record: log < FILE
#![tactic(auto)]

use std::process::ExitCode;

fn main(rt: HostRuntime) -> ExitCode {
    let status = manners::run_wordless(
        &rt,
        b"log",
        b"log: takes no words; put < before a file's name: log < my.log\n",
        |from, to, _| stream::copy(from, to, &mut [0; 65536]),
    );
    ExitCode::from(status)
}
