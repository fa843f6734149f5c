// Runs the day on standard input, and prints its answers on standard output.
#![tactic(auto)]

use std::io;
use stream::run_day;

fn main(rt: HostRuntime) -> io::Result<()> {
    let mut input = rt.stdin();
    let mut output = rt.stdout();
    run_day(rt.alloc(), &mut input, &mut output)
}
