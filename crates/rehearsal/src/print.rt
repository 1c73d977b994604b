// What is written out.
use crate::script::Move;
use outcome::Report;
use partner::{DataKey, Entry, KeySet, Name};
use row::Found;
use std::io;

// The letters of an error, in the order of ERF, A the lowest bit.
fn put_letters(rt: &impl Print, letters: u64) -> io::Result<()> {
    let mut left = letters;
    for letter in b"ABFIKMOPU" {
        if left % 2 == 1 {
            rt.write_all(&[*letter])?;
        }
        left = left / 2;
    }
    Ok(())
}

// The place of a service among the twelve contents of SVR.
fn put_service(rt: &impl Print, service: u64) -> io::Result<()> {
    rt.print(", service number ")?;
    if 1 <= service {
        return rt.print(service - 1);
    }
    Ok(())
}

// The keys of a KSM, and its IV where there is one.
fn put_new_keys(rt: &impl Print, report: Report) -> io::Result<()> {
    rt.print(", new keys")?;
    if report.vector {
        let iv = report.iv;
        return print!(rt; ", IV {iv:016x}");
    }
    Ok(())
}

// What is told besides the answer.
fn put_told(rt: &impl Print, report: Report) -> io::Result<()> {
    let class = report.class;
    match class {
        0 => Ok(()),
        outcome::RSI => put_service(rt, report.service),
        outcome::KSM => put_new_keys(rt, report),
        outcome::RSM => rt.print(", confirmed"),
        _ => {
            rt.print(", failed: ")?;
            put_letters(rt, report.letters)
        }
    }
}

// The answer, the letters of our own error, and what is told.
pub(crate) fn told(rt: &impl Print, report: Report) -> io::Result<()> {
    let answer = report.answer;
    print!(rt; "  answer {answer}")?;
    if report.class == 0 && report.letters != 0 {
        rt.print(", letters ")?;
        put_letters(rt, report.letters)?;
    }
    put_told(rt, report)?;
    rt.println("")
}

// What a call put out: a message as it is, of an image its length.
pub(crate) fn text(rt: &impl Print, act: Move, text: &[u8]) -> io::Result<()> {
    rt.print("  ")?;
    if act == Move::Write {
        let length = text.len();
        println!(rt; "{length} bytes")
    } else {
        rt.write_all(text)?;
        rt.println("")
    }
}

// A name without the blanks that fill it.
fn put_name(rt: &impl Print, name: Name) -> io::Result<()> {
    rt.write_all(octets::bare(&name.bytes))
}

// A data key and its name.
fn put_key(rt: &impl Print, key: DataKey) -> io::Result<()> {
    let value = key.key;
    print!(rt; " {value:016x} ")?;
    put_name(rt, key.name)
}

// The keys of one direction, of two places as many as there are.
fn put_keys(rt: &impl Print, direction: &str, set: KeySet) -> io::Result<()> {
    rt.print(direction)?;
    for key in [set.first, set.second].iter().take(set.count.into()) {
        put_key(rt, *key)?;
    }
    rt.println("")
}

// An entry: its counts, its phase and the data keys of both directions.
fn put_entry(rt: &impl Print, e: Entry) -> io::Result<()> {
    let next = e.sending.next;
    let expected = e.receiving.expected;
    let phase = e.sending.phase;
    rt.print("  key ")?;
    put_name(rt, e.top.name)?;
    println!(rt; " next {next} expected {expected} phase {phase}")?;
    put_keys(rt, "  outgoing", e.sending.outgoing)?;
    put_keys(rt, "  incoming", e.receiving.incoming)
}

// The answer alone.
pub(crate) fn answer(rt: &impl Print, answer: u32) -> io::Result<()> {
    println!(rt; "  answer {answer}")
}

// The entry asked for, where there is one, and the answer.
pub(crate) fn found(rt: &impl Print, found: Found) -> io::Result<()> {
    if found.answer == 0 {
        put_entry(rt, found.entry)?;
    }
    answer(rt, found.answer)
}

// Whether the row is legal: 0 or 13.
pub(crate) fn judged(rt: &impl Print, legal: bool) -> io::Result<()> {
    answer(rt, if legal { 0 } else { 13 })
}
