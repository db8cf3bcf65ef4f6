// Prints who supplies the guide, section by section: guide < FILE
#![tactic(auto)]

use std::process::ExitCode;

fn main(rt: HostRuntime) -> ExitCode {
    let status = manners::run_wordless(
        &rt,
        b"guide",
        b"guide: takes no words; put < before a file's name: guide < my.sections\n",
        |from, to, _| guide_stream::copy(from, to, &mut [0; 131072]),
    );
    ExitCode::from(status)
}
