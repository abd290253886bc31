// `roadsheet` on an input that is longer than its buffer.
#![tactic(auto)]

fn main(rt: HostRuntime) {
    program::run(&rt);
}
