// Lists the plan on standard input as it is given.
#![tactic(auto)]

// The descriptor of the standard input.
const STDIN: i32 = 0;

fn main() {
    let mut file = [0u8; 9728];
    let n = io::read_full(STDIN, &mut file);
    plan_listing::show(&file[..n]);
}
