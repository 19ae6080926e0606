// Ensures the plan on standard input, and lists the plan that comes of it (01, 'Worked on paper'). A refusal prints only its number.
#![tactic(auto)]

// The descriptor of the standard input.
const STDIN: i32 = 0;

fn main() {
    let mut file = [0u8; 9728];
    let mut out = [0u8; 9216];
    let n = io::read_full(STDIN, &mut file);
    let refusal = sort_placement::ensure_sorting(&file[..n], &mut out);
    if refusal == 0 {
        plan_listing::show_written(&out);
    } else {
        plan_listing::put_refusal(refusal);
    }
}
