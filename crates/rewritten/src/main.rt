// Writes lists of numbers as trace files, into buffers of several lengths that are filled with 170, and prints for each the answer, the
// eight bytes that then stand there, and the numbers that are read in what was written.
#![tactic(auto)]

use std::io;
use units::Bytes;

// The buffer's bytes.
const ROOM: usize = 8;

fn main(rt: HostRuntime) {
    let cases: [(&[u64], usize); 17] = [
        (&[], 0),
        (&[], 1),
        (&[], ROOM),
        (&[0, 0], 3),
        (&[0, 0], 2),
        (&[5], ROOM),
        (&[5], 0),
        (&[127, 128], 4),
        (&[127, 128], 3),
        (&[300, 5], ROOM),
        (&[300, 5], 4),
        (&[300, 5], 3),
        (&[4_294_967_295, 0], 7),
        (&[4_294_967_295, 0], 6),
        (&[5, 4_294_967_296], ROOM),
        (&[5, 4_294_967_296], 0),
        (&[u64::MAX, 5, 5], ROOM),
    ];
    for (numbers, room) in cases {
        // Output that cannot be written is passed over.
        let _ = print_case(&rt, numbers, room);
    }
}

fn print_case(rt: &impl Print, numbers: &[u64], room: usize) -> io::Result<()> {
    print!(rt; "list")?;
    for number in numbers {
        print!(rt; " {number}")?;
    }
    print!(rt; " room {room}")?;
    let mut buffer = [170u8; ROOM];
    let written = match buffer.get_mut(..room) {
        Some(part) => trace::write(numbers, part),
        None => return println!(rt; ""),
    };
    match written {
        Ok(length) => print!(rt; ": length {}", length.0)?,
        Err(refusal) => print!(rt; ": {refusal}")?,
    }
    print!(rt; ": bytes")?;
    for byte in &buffer {
        print!(rt; " {byte}")?;
    }
    if let Ok(length) = written {
        print_read(rt, buffer.get(..length.0).unwrap_or(&[]))?;
    }
    println!(rt; "")
}

// The numbers after the mark: no more than there are bytes.
fn print_read(rt: &impl Print, file: &[u8]) -> io::Result<()> {
    print!(rt; ": reads")?;
    let mut at = Bytes(1);
    for _ in file {
        let Ok(number) = reader::read(file, at) else {
            break;
        };
        print!(rt; " {}", number.value)?;
        at = number.next;
    }
    Ok(())
}
