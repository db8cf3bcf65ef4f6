// Unwraps each stored file that the arguments name, twice: through a block of one of the longest records, and through a large one. Prints the packets, then the
// report and the status.
#![tactic(auto)]

use std::io;

fn main(rt: HostRuntime) {
    let mut to = rt.stdout();
    samples::each(&rt, |name| {
        samples::print_both(
            &rt,
            &mut to,
            None,
            name,
            65539,
            |file, to| unwrap_stream::copy_slowly(file, to, &mut io::sink(), &mut [0; 65539]),
            |file, to| unwrap_stream::copy_slowly(file, &mut io::sink(), to, &mut [0; 65539]),
        );
        samples::print_both(
            &rt,
            &mut to,
            None,
            name,
            131072,
            |file, to| unwrap_stream::copy(file, to, &mut io::sink(), &mut [0; 131072]),
            |file, to| unwrap_stream::copy(file, &mut io::sink(), to, &mut [0; 131072]),
        );
    });
}
