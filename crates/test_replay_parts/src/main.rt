// The replay program on a list of 3,000 steps and a rest of five bytes: two whole parts of 1,024 steps and one that is shorter. The file
// stdin has the steps of a mixed session; the lines of the file stdout were not made by this program, an independent model gave them.
#![tactic(auto)]

use std::io;

fn main(rt: HostRuntime) -> io::Result<()> {
    playback::replay(&rt)
}
