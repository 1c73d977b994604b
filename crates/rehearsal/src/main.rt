// A rehearsal: two cards over lent rows are started and loaded for each other and exchange keys in memory; a message comes
// twice, one is lost, the tables are stored and read back. What each call gives is written out.
#![tactic(auto)]

mod keys;
mod print;
mod script;

use partner::Entry;
use script::{Letters, Move, Side};
use std::io;

// The move of that number, made over the row of the card whose move it is, with room for what it puts out.
fn perform(
    rt: &impl Print,
    row: &mut [Entry],
    number: usize,
    letters: &mut Letters,
) -> io::Result<()> {
    let act = script::act(number);
    let side = Side::of(number);
    let name = side.identity();
    println!(rt; "{name} {act}")?;
    let own = name.as_bytes();
    let partner = side.partner().identity().as_bytes();
    let given = script::given(number, *letters);
    let text = given.text();
    let mut reply = [0u8; 256];
    let report = match act {
        Move::Start => return print::answer(rt, row::start(row, own)),
        Move::Read => return print::answer(rt, row::read_image(text, row)),
        Move::Ask => return print::found(rt, row::ask(row, own, partner)),
        Move::Judge => return print::judged(rt, row::legal(row, own)),
        Move::Write => row::write_image(row, own, &mut reply),
        _ => row::call(row, own, partner, script::asked(act), text, &mut reply),
    };
    script::after(rt, number, letters, &reply, report)
}

fn main(rt: HostRuntime) -> io::Result<()> {
    let mut alpha = [partner::empty(); 64];
    let mut bravo = [partner::empty(); 64];
    let mut letters = Letters::none();
    for number in 0..script::MOVES {
        match Side::of(number) {
            Side::Alpha => perform(&rt, &mut alpha, number, &mut letters)?,
            Side::Bravo => perform(&rt, &mut bravo, number, &mut letters)?,
        }
    }
    Ok(())
}
