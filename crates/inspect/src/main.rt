// An image from standard input as text.
#![tactic(auto)]

use image::layout::IMAGE;
use inspection::LINES;
use lines::Line;
use std::io;

// Line n, or why there is none; answers whether to go on.
fn line(to: &impl Print, image: &[u8], n: usize) -> io::Result<bool> {
    match inspection::image_line(image, n) {
        Ok(Some(line)) => writing::show(to, line),
        Ok(None) => Ok(false),
        Err(refusal) => {
            let number = u32::from(refusal.number());
            let words = Line::EMPTY.word(b"refused ").number(number).byte(b'\n');
            writing::show(to, words)?;
            Ok(false)
        }
    }
}

fn lines(to: &impl Print, image: &[u8]) -> io::Result<()> {
    for n in 0..LINES {
        if !line(to, image, n)? {
            break;
        }
    }
    Ok(())
}

// One byte more than an image has, so that a longer input is refused.
fn main(rt: HostRuntime) -> io::Result<()> {
    let mut space = [0u8; IMAGE + 1];
    let got = reading::read_full(&mut rt.reader(), &mut space)?;
    lines(&rt, &space[..got])
}
