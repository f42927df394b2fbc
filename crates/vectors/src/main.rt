// Runs the published vectors of the seals, and lengths 0 to 300, and prints what comes out; `stdout` has what another
// implementation gives (tests/vectors.py writes it).
#![tactic(auto)]

mod chacha20;
mod hmac_sha256;
mod lengths;
mod sha_256;
mod show;
mod theorems;

fn run(rt: &HostRuntime) -> anyhow::Result<()> {
    chacha20::run(rt)?;
    sha_256::run(rt)?;
    hmac_sha256::run(rt)?;
    lengths::run(rt)
}

fn main(rt: HostRuntime) -> anyhow::Result<()> {
    run(&rt)
}
