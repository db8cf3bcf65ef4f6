// Prints the transcript of each stored log that the arguments name, and the status, twice: read in blocks of one record, and in large ones.
#![tactic(auto)]

fn main(rt: HostRuntime) {
    let mut to = rt.stdout();
    samples::each(&rt, |name| {
        samples::print(&rt, &mut to, name, 39, |file, to| {
            stream::copy_slowly(file, to, &mut [0; 39])
        });
        samples::print(&rt, &mut to, name, 65536, |file, to| {
            stream::copy(file, to, &mut [0; 65536])
        });
    });
}
