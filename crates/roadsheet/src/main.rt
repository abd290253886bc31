// Prints the sheet of a table file: see `program`.
#![tactic(auto)]

fn main(rt: HostRuntime) {
    program::run(&rt);
}
