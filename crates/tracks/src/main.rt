#![tactic(auto)]

fn main(rt: HostRuntime) {
    let mut stdin = rt.stdin();
    let mut buffer = [0u8; 65537];
    program::run(&mut stdin, &mut buffer);
}
