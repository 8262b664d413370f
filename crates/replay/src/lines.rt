// Lines in a buffer that is filled up from standard input.
ghost use Rattle.std.specs.Prelude.{◌+◌, ◌≤◌, ◌<◌, length};

use crate::answers::answer;
use jobs::writing::Answer;
use std::io::{Read, Write};

// Reads until a buffer is full or the input gives no more, at its end or by a failed read; how many bytes there are. `read_exact` would lose what
// came before such an end.
fn read_full<R: Read>(source: &mut R, buffer: &mut [u8]) -> usize
    ensures { result ≤ length buffer.new }
{
    let mut done = 0;
    while done < buffer.len() {
        match source.read(&mut buffer[done..]) {
            Ok(0) | Err(_) => break,
            Ok(n) => done += n,
        }
    }
    done
}

// Answers a line. A failed write is passed over.
fn answer_line<W: Write>(sink: &mut W, line: &[u8], room: &mut [f64], output: &mut [u8]) {
    let mut out = Answer::new(output);
    let _ = answer(line, room, &mut out);
    let _ = sink.write_all(out.written());
}

// Answers the lines of a text, one after the other.
fn answer_lines<W: Write>(sink: &mut W, text: &[u8], room: &mut [f64], output: &mut [u8]) {
    for line in text.split(|b| *b == b'\n') {
        answer_line(sink, line, room, output);
    }
}

// How often the input is filled up, at most.
const FILLS: usize = 1000000000;

// Answers standard input, as many whole lines at a time as the input's buffer holds.
pub fn answer_all<R: Read, W: Write>(
    source: &mut R,
    sink: &mut W,
    input: &mut [u8],
    room: &mut [f64],
    output: &mut [u8],
) {
    let mut have = 0;
    for _ in 0..FILLS {
        have += read_full(source, &mut input[have..]);
        let Some(end) = input[..have].iter().rposition(|b| *b == b'\n') else {
            return;
        };
        answer_lines(sink, &input[..end], room, output);
        input.copy_within(end + 1..have, 0);
        have -= end + 1;
    }
}
