// What a line asks for: its operation and its four numbers.
ghost use Rattle.std.specs.Prelude.{◌<◌};

use keying::{Blocks, Top};

// The value of a hexadecimal digit; of any other byte, zero.
fn digit(b: u8) -> u8
    ensures { result < 16 }
{
    match b {
        b'0'..=b'9' => b - b'0',
        b'A'..=b'F' => b - b'A' + 10,
        b'a'..=b'f' => b - b'a' + 10,
        _ => 0,
    }
}

// The low 64 bits of the number whose hexadecimal digits these are.
pub(crate) fn hex(s: &[u8]) -> u64 {
    s.iter().fold(0, |n, b| (n << 4) | digit(*b) as u64)
}

// The numbers of a line: the left and the right key, the count and the block.
#[derive(Clone, Copy)]
pub(crate) struct Numbers {
    pub(crate) left: u64,
    pub(crate) right: u64,
    pub(crate) count: u64,
    pub(crate) block: u64,
}

impl From<&[u8; 70]> for Numbers {
    fn from(line: &[u8; 70]) -> Numbers {
        Numbers {
            left: hex(&line[2..18]),
            right: hex(&line[19..35]),
            count: hex(&line[36..52]),
            block: hex(&line[53..69]),
        }
    }
}

impl Numbers {
    // The working key of the left key or of the pair, offset by the count, or notarized by an originator and a receiver.
    fn working(self, pair: bool, notarized: bool, org: &[u8], rcv: &[u8]) -> Top {
        let top = if pair {
            Top::Pair(self.left, self.right)
        } else {
            Top::Single(self.left)
        };
        notary::working(notarized, org, rcv, top, self.count)
    }

    // The block as the only key.
    fn alone(self) -> Blocks {
        Blocks {
            first: self.block,
            second: None,
        }
    }
}

// What is done to the block: it is enciphered or deciphered under the left key, or as a data key it is sealed or unsealed
// under a working key.
#[derive(Clone, Copy)]
pub(crate) enum Operation {
    Encipher,
    Decipher,
    Seal { pair: bool, notarized: bool },
    Unseal { pair: bool, notarized: bool },
}

// By the letter that a line starts with.
impl TryFrom<u8> for Operation {
    type Error = ();

    fn try_from(letter: u8) -> Result<Operation, ()> {
        let pair = matches!(letter, b'T' | b'V' | b'P' | b'Q');
        let notarized = matches!(letter, b'N' | b'O' | b'P' | b'Q');
        match letter {
            b'E' => Ok(Operation::Encipher),
            b'D' => Ok(Operation::Decipher),
            b'S' | b'T' | b'N' | b'P' => Ok(Operation::Seal { pair, notarized }),
            b'U' | b'V' | b'O' | b'Q' => Ok(Operation::Unseal { pair, notarized }),
            _ => Err(()),
        }
    }
}

impl Operation {
    // What it makes of the block.
    pub(crate) fn answer(self, org: &[u8], rcv: &[u8], numbers: Numbers) -> u64 {
        match self {
            Operation::Encipher => cipher::encipher(numbers.left, numbers.block),
            Operation::Decipher => cipher::decipher(numbers.left, numbers.block),
            Operation::Seal { pair, notarized } => {
                let key = numbers.working(pair, notarized, org, rcv);
                sealing::seal(key, numbers.alone()).first
            }
            Operation::Unseal { pair, notarized } => {
                let key = numbers.working(pair, notarized, org, rcv);
                sealing::unseal(key, numbers.alone()).first
            }
        }
    }
}
