// The program on histories to 65 blocks and 2,081 intervals, move lists of every length, and a last line with no line feed.
#![tactic(auto)]

fn main(rt: HostRuntime) {
    let mut input_log = [0; 0];
    let mut text_log = [0; 0];
    shell::run(rt, &mut input_log, &mut text_log);
}
