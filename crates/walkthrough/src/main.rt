//! Tells, on a design from standard input, how boards keep it and how any t + 1 of them give it back.
#![tactic(auto)]

mod choices;
mod fetching;
mod keeping;
mod kinds;
mod rounds;
mod shown;
mod telling;

use choices::{Away, yes_count};
use kinds::{FieldKind, HashKind};
use rounds::Round;
use shown::Start;
use std::io;
use std::io::Read;

/// The rounds, in which other boards are away and another fragment is damaged each time.
const ROUNDS: [Round; 8] = [
    Round {
        faults: 1,
        field: FieldKind::Field256,
        hash: HashKind::Sha256,
        away: Away::Lowest,
        damaged: 2,
        shown: 32,
    },
    Round {
        faults: 1,
        field: FieldKind::Field256,
        hash: HashKind::Fold,
        away: Away::Highest,
        damaged: 1,
        shown: 8,
    },
    Round {
        faults: 1,
        field: FieldKind::Field257,
        hash: HashKind::Sha256,
        away: Away::Middle,
        damaged: 4,
        shown: 8,
    },
    Round {
        faults: 1,
        field: FieldKind::Field257,
        hash: HashKind::Fold,
        away: Away::EveryThird,
        damaged: 3,
        shown: 8,
    },
    Round {
        faults: 2,
        field: FieldKind::Field256,
        hash: HashKind::Sha256,
        away: Away::Lowest,
        damaged: 3,
        shown: 8,
    },
    Round {
        faults: 2,
        field: FieldKind::Field256,
        hash: HashKind::Fold,
        away: Away::Highest,
        damaged: 1,
        shown: 8,
    },
    Round {
        faults: 2,
        field: FieldKind::Field257,
        hash: HashKind::Sha256,
        away: Away::Middle,
        damaged: 7,
        shown: 8,
    },
    Round {
        faults: 2,
        field: FieldKind::Field257,
        hash: HashKind::Fold,
        away: Away::EveryThird,
        damaged: 2,
        shown: 8,
    },
];

/// Reads the whole design from standard input.
fn read_design(rt: &HostRuntime) -> io::Result<Vec<u8>> {
    let mut design = Vec::new(rt.alloc());
    rt.stdin().read_to_end(&mut design)?;
    Ok(design)
}

/// What the words and letters mean that the rounds use.
const WORDS: &str = "
Bytes are written in hexadecimal, two digits each. Text has a dot for what cannot be printed.

  board     one of the n keepers of a design
  t         how many boards may be missing or broken; n is 3t + 1
  row       t + 1 bytes of the design, one after another; there are R rows
  block     the design, filled up with zero bytes to whole rows: K bytes
  fragment  what one board keeps of the block: a number for each row, S bytes in all
  field     the numbers to reckon with: 256 of them, of one byte, or 257, of two bytes
  digest    32 bytes that a hash makes of a fragment, to tell it from any other
  hash      SHA-256, or Fold: the exclusive or of all pieces of 32 bytes
  vector    the digests of all fragments, V bytes; a fragment is good if its digest is its entry there
  share     what one board keeps of the vector, made of Q rows as a fragment is: G bytes

Each round cuts the design into rows and gives every board its fragment. Beside the first bytes of
each fragment stands its digest, whole in the first round, and in the others its first 8 bytes.
Then t boards are taken away, and the t + 1 lowest of the others give the design back.
Then all boards are back, and the first byte of one fragment is turned. Its digest is no longer its
entry of the vector, so that board is left out, and the t + 1 lowest of the others are used.";

/// Tells what the design is, and what the words mean that the rounds use.
fn tell_words(rt: &HostRuntime, design: &[u8]) -> io::Result<()> {
    rt.println("How boards keep a design, and how some of them give it back\n")?;
    println!(rt; "The design has {}\n{WORDS}", Start(design))
}

/// Tells the rounds one after another, and says of each whether the design came back.
fn tell_rounds(rt: &HostRuntime, design: &[u8]) -> io::Result<[bool; 8]> {
    let mut answers = [false; 8];
    for (i, round) in ROUNDS.iter().enumerate() {
        println!(rt; "\nRound {} of {}: {round}", i + 1, ROUNDS.len())?;
        answers[i] = round.tell(rt, design)?;
    }
    Ok(answers)
}

/// Tells all that happens, and how many rounds gave the design back.
fn run(rt: &HostRuntime) -> io::Result<()> {
    let design = read_design(rt)?;
    tell_words(rt, &design)?;
    let answers = tell_rounds(rt, &design)?;
    println!(rt;
        "\n{} of {} rounds gave the design back",
        yes_count(&answers),
        answers.len()
    )
}

fn main(rt: HostRuntime) -> io::Result<()> {
    run(&rt)
}
