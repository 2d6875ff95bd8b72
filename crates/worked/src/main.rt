// Runs the cases of the table on standard input: those that 01 asks to be run and compared, and the case that tells each plausible error.
// A line of it that starts with `#` is a comment, one that is indented by two spaces is a case, printed with what came of it, and any other
// is a heading, printed as it is.
#![tactic(auto)]

mod case;
mod fed;
mod print;
mod sample;
mod stepped;
mod whole;

use case::Case;
use std::io::Write;

// The bytes of the longest table that is taken.
const LONGEST: usize = 32_768;

fn main(rt: HostRuntime) {
    // One byte more, so that a longer one is seen to be too long; an array, since memory for a vector could run out.
    let mut table = [0u8; 32_769];
    let n = io::read_full(0, &mut table);
    // Output that cannot be written is passed over.
    if LONGEST < n {
        let _ = println!(rt; "the table has more than 32768 bytes");
        return;
    }
    let mut rest = &table[..n];
    // No table has more lines than bytes.
    for _ in 0..LONGEST {
        let line = cases::line(rest, 0);
        rest = rest.get(line.len().saturating_add(1)..).unwrap_or(&[]);
        match line {
            // An empty line ends it.
            [] => break,
            [b'#', _, ..] => {}
            [b' ', _, case @ ..] => {
                let _ = run(&rt, Case { line: case });
            }
            heading => {
                let _ = std::io::writer(&rt).write_all(heading);
                let _ = println!(rt; "");
            }
        }
    }
}

// A case with a threshold is a low that is read, and one with a size is fed to a chip. One with a pulse, or with a byte that is sent as
// another, is stepped.
fn run(rt: &impl Print, case: Case<'_>) -> std::io::Result<()> {
    std::io::writer(rt).write_all(case.line)?;
    if case.says(case::THRESHOLD) {
        print::read(rt, case)
    } else if case.says(case::SIZE) {
        fed::run(rt, case)
    } else if case.says(case::PULSE) || case.says(case::SENT) {
        stepped::run(rt, case)
    } else {
        whole::run(rt, case)
    }
}
