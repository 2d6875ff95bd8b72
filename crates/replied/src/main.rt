// Serial sessions with what comes back for their bytes: whole ones to each ending, with the image on standard input, and single calls on
// records made by hand. A line each.
#![tactic(auto)]

mod calls;
mod sessions;

fn main(rt: HostRuntime) {
    // An array: memory for a vector could run out.
    let mut image = [0u8; 44];
    let n = io::read_full(0, &mut image);
    // Output that cannot be written is passed over.
    let _ = sessions::print_all(&rt, &image[..n]);
    let _ = calls::print_all(&rt);
}
