// The program on an empty input.
#![tactic(auto)]

fn main(rt: HostRuntime) {
    let mut input_log = [0; 0];
    let mut text_log = [0; 0];
    shell::run(rt, &mut input_log, &mut text_log);
}
