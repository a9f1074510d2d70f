#![tactic(auto)]

fn main(rt: HostRuntime) {
    list_program::run(&rt);
}
