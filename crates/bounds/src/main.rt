// Steps records made by hand, one for each case of the table on standard input: at each bound of docs/RECORDS.md one that is taken, and
// past it one that is refused 13. The table says how it is read.
#![tactic(auto)]

mod chips;
mod hosts;
mod words;

use std::io::Write;
use words::said;

// The bytes of the longest table that is taken.
const LONGEST: usize = 32_768;

fn main(rt: HostRuntime) {
    // One byte more, so that a longer one is seen to be too long; an array, since memory for a vector could run out.
    let mut table = [0u8; 32_769];
    let n = io::read_full(0, &mut table);
    // Output that cannot be written is passed over.
    if LONGEST < n {
        let _ = println!(rt; "the table has more than 32768 bytes");
        return;
    }
    let mut rest = &table[..n];
    // No table has more lines than bytes.
    for _ in 0..LONGEST {
        let line = cases::line(rest, 0);
        rest = rest.get(line.len().saturating_add(1)..).unwrap_or(&[]);
        // An empty line ends it.
        if line.is_empty() {
            break;
        }
        if !line.starts_with(b"#") {
            let _ = print_line(&rt, line);
        }
    }
}

// A line is printed up to the space before its bar. One that has a bar is a case, any other a heading.
fn print_line(rt: &impl Print, line: &[u8]) -> std::io::Result<()> {
    match line.iter().skip(1).position(|byte| *byte == b'|') {
        Some(bar) => {
            std::io::writer(rt).write_all(line.get(..bar).unwrap_or(line))?;
            print_step(rt, line)
        }
        None => {
            std::io::writer(rt).write_all(line)?;
            println!(rt; "")
        }
    }
}

// Steps a host, a serial session or a chip.
fn print_step(rt: &impl Print, line: &[u8]) -> std::io::Result<()> {
    if said(line, words::HOST) {
        hosts::print_host(rt, line)
    } else if said(line, words::SERIAL) {
        hosts::print_serial(rt, line)
    } else {
        chips::print_chip(rt, line)
    }
}
