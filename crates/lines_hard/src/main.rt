// The program on unreadable lines of every kind, before and after the first map, and on numbers at every limit.
#![tactic(auto)]

fn main(rt: HostRuntime) {
    let mut input_log = [0; 0];
    let mut text_log = [0; 0];
    shell::run(rt, &mut input_log, &mut text_log);
}
