// Finishes a load in RAM, and prints the RAM's total, and whether the checksum is good. On standard input is a byte, and then what was
// stored, of which no more is read than fills the RAM. Where that byte is `-` the load is not finished, so that what finishing takes can be
// counted: bench/finish does.
#![tactic(auto)]

use units::Bytes;

fn main(rt: HostRuntime) {
    // A byte of RAM that was not stored is 1 until it is zeroed.
    let mut input = [1u8; 32_769];
    let n = io::read_full(0, &mut input);
    // Output that cannot be written is passed over.
    if n == 0 {
        let _ = println!(rt; "nothing on standard input");
        return;
    }
    let is_left = input[0] == b'-';
    let ram = &mut input[1..];
    let words = if is_left {
        "not finished"
    } else if ram::finish(ram, Bytes(n - 1)) {
        "good"
    } else {
        "bad"
    };
    let _ = println!(rt; "{} {words}", lent::total(ram));
}
