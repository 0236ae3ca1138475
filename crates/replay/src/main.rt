// Document 01: the replay program.
#![tactic(auto)]

use std::io;

fn main(rt: HostRuntime) -> io::Result<()> {
    playback::replay(&rt)
}
