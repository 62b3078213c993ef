#![tactic(auto)]

use printing::{ENOUGH, INPUT, print_input};
use streams::{read_input, tell};

// Reads a sheet on standard input and prints its answer on standard output. A read or a write that fails is told in one line on
// standard error; after a failed read nothing is printed.
fn main(rt: HostRuntime) {
    let mut input = [0u8; INPUT];
    let Ok(n) = read_input(&mut rt.stdin(), &mut input) else {
        tell(&mut rt.stderr(), b"reduce: standard input cannot be read\n");
        return;
    };
    let mut room = [0u8; ENOUGH];
    let k = print_input(&input, n, &mut room);
    if rt.write_all(&room[..k]).is_err() {
        tell(
            &mut rt.stderr(),
            b"reduce: standard output cannot be written\n",
        );
    }
}
