// Prints the lines of each stored file of sections that the arguments name, and the status, twice: read through a block of one of the longest records, and through a
// large one.
#![tactic(auto)]

fn main(rt: HostRuntime) {
    let mut to = rt.stdout();
    samples::each(&rt, |name| {
        samples::print(&rt, &mut to, name, 65539, |file, to| {
            guide_stream::copy_slowly(file, to, &mut [0; 65539])
        });
        samples::print(&rt, &mut to, name, 131072, |file, to| {
            guide_stream::copy(file, to, &mut [0; 131072])
        });
    });
}
