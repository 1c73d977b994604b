// Known answers: reads lines of an operation and four numbers, and writes each with its answer.
#![tactic(auto)]

ghost use Rattle.std.specs.Prelude.{◌≤◌, length};

use operation::{Numbers, Operation};
use std::io;
use std::io::Read;

mod operation;
mod whole;

// As many bytes as there are room for or as are left on the input, at the front of the room: how many. A read that fails
// ends the input. By hand, since no method of the library says how many bytes a short input had.
fn read_full<R: Read>(input: &mut R, room: &mut [u8]) -> usize
    ensures { result ≤ length room.new }
{
    let mut held = 0;
    while held < room.len() {
        match input.read(&mut room[held..]) {
            Ok(0) | Err(_) => return held,
            Ok(n) => held += n,
        }
    }
    held
}

// A line of four numbers, what else it is about if anything, and its answer for an originator and a receiver; of a letter
// that is no operation, zero.
fn tell_answer(
    rt: &impl Print,
    line: &[u8; 70],
    about: &[u8],
    org: &[u8],
    rcv: &[u8],
) -> io::Result<()> {
    let answer = Operation::try_from(line[0]).map_or(
        0,
        |operation| operation.answer(org, rcv, Numbers::from(line)),
    );
    rt.write_all(&line[..69])?;
    if !about.is_empty() {
        rt.write_all(b" ")?;
        rt.write_all(about)?;
    }
    println!(rt; " {answer:016x}")
}

// The same for the originator and the receiver on the line that follows, each filled with blanks to 16 characters, and a
// blank between them.
fn tell_notarized(
    rt: &impl Print,
    input: &mut impl Read,
    line: &[u8; 70],
    text: &mut [u8; 512],
) -> io::Result<()> {
    read_full(input, &mut text[..34]);
    let names = &text[..33];
    tell_answer(
        rt,
        line,
        names,
        octets::bare(&names[..16]),
        octets::bare(&names[17..]),
    )
}

// The MAC under the left key of the text that follows a line, as many bytes as its count says and a line end.
fn tell_mac(
    rt: &impl Print,
    input: &mut impl Read,
    numbers: Numbers,
    text: &mut [u8; 512],
) -> io::Result<()> {
    let n = (numbers.count % 512) as usize;
    read_full(input, &mut text[..n]);
    let mac = sealing::mac(numbers.left, &text[..n]);
    rt.write_all(&text[..n])?;
    println!(rt; " {mac:08x}")?;
    read_full(input, &mut text[n..n + 1]);
    Ok(())
}

// The message that follows a line, read and written anew from its parts, its MAC under the left key.
fn tell_message(
    rt: &impl Print,
    input: &mut impl Read,
    numbers: Numbers,
    text: &mut [u8; 512],
) -> io::Result<()> {
    let n = (numbers.count % 512) as usize;
    read_full(input, &mut text[..n + 1]);
    let mut reply = [0u8; 256];
    let written = whole::anew(&mut reply, &text[..n], numbers.left);
    if let Some(message) = written.and_then(|length| reply.get(..length)) {
        rt.write_all(message)?;
    }
    rt.write_all(b"\n")
}

// A line with its answer.
fn tell(
    rt: &impl Print,
    input: &mut impl Read,
    line: &[u8; 70],
    text: &mut [u8; 512],
) -> io::Result<()> {
    match line[0] {
        b'M' => tell_mac(rt, input, Numbers::from(line), text),
        b'W' => tell_message(rt, input, Numbers::from(line), text),
        b'N' | b'O' | b'P' | b'Q' => tell_notarized(rt, input, line, text),
        _ => tell_answer(rt, line, b"", b"", b""),
    }
}

fn main(rt: HostRuntime) -> io::Result<()> {
    let mut input = rt.stdin();
    let mut line = [0; 70];
    let mut text = [0; 512];
    for lines in 0..100000 {
        if read_full(&mut input, &mut line) < line.len() {
            return println!(rt; "{lines} lines");
        }
        tell(&rt, &mut input, &line, &mut text)?;
    }
    Ok(())
}
