// The line lister: of each line on standard input its number, its class or `-`, and its length in bytes.
#![tactic(auto)]

ghost use Rattle.std.specs.Prelude.{◌≡◌, ◌+◌, ◌≤◌, min};
ghost use Rattle.csm.specs.Message.{read};
ghost use Rattle.lister.specs.Listing.{listed_class, row_of};

use fields::Class;
use reader::Message;
use std::env::FillError;
use std::io::Read;
use std::rt::Env;
use std::{fmt, io};

// What is listed of a line: its class, if it is a message; its length, if it is no more than 512.
#[derive(Clone, Copy)]
pub struct Row {
    pub class: Option<Class>,
    pub bytes: Option<usize>,
}

impl fmt::Display for Row {
    fn fmt<W: fmt::Write>(&self, f: &mut fmt::Formatter<W>) -> fmt::Result {
        match self.class {
            Some(class) => f.write_str(class.name())?,
            None => f.write_str("-")?,
        }
        match self.bytes {
            Some(bytes) => write!(f, " {bytes}"),
            None => f.write_str(" >512"),
        }
    }
}

// The class of a line, if it is a message.
fn class_of(line: &[u8]) -> Option<Class>
    ensures { result ≡ listed_class (read line.now) }
{
    Some(match reader::read(line)? {
        Message::Rsi(_) => Class::Rsi,
        Message::Ksm(_) => Class::Ksm,
        Message::Rsm(_) => Class::Rsm,
        Message::Esm(_) => Class::Esm,
        Message::Option(rest) => rest.class,
    })
}

// What is listed of a line.
fn row_of(line: &[u8]) -> Row
    ensures { result ≡ row_of line.now }
{
    let bytes = line.len();
    Row {
        class: class_of(line),
        bytes: (bytes <= 512).then_some(bytes),
    }
}

// What is held of a line: what it has after 513 bytes is passed over.
#[derive(Clone, Copy)]
struct Held {
    line: [u8; 513],
    bytes: usize,
    ghost within: { bytes ≤ 513 },
}

impl Held {
    // The bytes that are held.
    fn line(&self) -> &[u8] {
        &self.line[..self.bytes]
    }

    // One byte more, where fewer than 513 are held.
    fn push(&mut self, b: u8)
        ensures { self.new.bytes ≡ min (self.old.bytes + 1) 513 }
    {
        if self.bytes < 513 {
            self.line[self.bytes] = b;
            self.bytes += 1;
        }
    }
}

// Where the lister stands: what it holds of the line, the lines and the readable ones so far.
#[derive(Clone, Copy)]
struct State {
    held: Held,
    lines: u64,
    readable: u64,
}

impl State {
    // The line that ends here is listed.
    fn end_line(&mut self, rt: &impl Print) -> io::Result<()> {
        let row = row_of(self.held.line());
        self.held.bytes = 0;
        self.lines = self.lines.wrapping_add(1);
        if row.class.is_some() {
            self.readable = self.readable.wrapping_add(1);
        }
        let number = self.lines;
        println!(rt; "{number} {row}")
    }

    // The bytes of a chunk, one after the other: each ends the line, or is held.
    fn take_in(&mut self, rt: &impl Print, chunk: &[u8]) -> io::Result<()> {
        for b in chunk {
            if *b == b'\n' {
                self.end_line(rt)?;
            } else {
                self.held.push(*b);
            }
        }
        Ok(())
    }

    // What stands last: a line without its end, then the lines and the readable ones.
    fn finish(&mut self, rt: &impl Print) -> io::Result<()> {
        if 0 < self.held.bytes {
            self.end_line(rt)?;
        }
        let lines = self.lines;
        let readable = self.readable;
        println!(rt; "total {lines} read {readable}")
    }
}

// Lists the lines of the input.
fn list(rt: &(impl Print + Eprint), input: &mut impl Read) -> io::Result<()> {
    let mut chunk = [0u8; 4096];
    let mut state = State {
        held: Held {
            line: [0; 513],
            bytes: 0,
        },
        lines: 0,
        readable: 0,
    };
    rt.write_all(b"line class bytes\n")?;
    for _ in 0..u64::MAX {
        match input.read(&mut chunk) {
            Ok(0) => return state.finish(rt),
            Ok(n) => state.take_in(rt, &chunk[..n])?,
            Err(_) => return eprintln!(rt; "lister: standard input cannot be read"),
        }
    }
    Ok(())
}

// What the lister is for, or that it takes no such word.
fn explain(rt: &(impl Print + Eprint), word: &[u8]) -> io::Result<()> {
    if word == b"--help".as_slice() {
        rt.write_all(b"usage: lister < FILE\n\n")?;
        rt.write_all(
            b"Reads messages on standard input, one to a line, and prints for each its number, its class\n",
        )?;
        rt.write_all(
            b"(or - where it is no message) and its length in bytes (>512 above 512); last the number of\n",
        )?;
        return rt.write_all(b"lines and of those that are messages.\n");
    }
    eprintln!(rt; "lister: it takes no word but --help; the lines come on standard input")
}

fn main(rt: HostRuntime) -> io::Result<()> {
    let mut word = [0u8; 8];
    match rt.arg(1, &mut word) {
        Ok(n) => explain(&rt, &word[..n]),
        Err(FillError::TooLong) => explain(&rt, b""),
        Err(FillError::NotPresent) => list(&rt, &mut rt.stdin()),
    }
}
