// Answers jobs read from standard input, one a line, as the oracle does: the same words in, the same words out, every float as the 16
// hexadecimal digits of its bits. A line that is no job is answered `bad`.
#![tactic(auto)]

use std::io;

mod answers;
mod items;
mod lines;
mod rings;
mod tables;

fn main(rt: HostRuntime) {
    let mut input = [0u8; 196608];
    let mut output = [0u8; 196608];
    let mut room = [0.0; 1024];
    let mut source = rt.reader();
    let mut sink = io::writer(&rt);
    lines::answer_all(&mut source, &mut sink, &mut input, &mut room, &mut output);
}
