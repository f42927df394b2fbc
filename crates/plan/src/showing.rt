// A file of settings as text, without its keys. Assumes nothing.
use settings::{Plan, Settings};
use std::net::Ipv4Addr;

fn show_gate(rt: &impl Print, plan: &Plan, gate: u8) -> anyhow::Result<()> {
    let range = plan.range(gate);
    let first = Ipv4Addr::from(range.first);
    let outside = Ipv4Addr::from(plan.outside(gate));
    match range.prefix_length() {
        Some(bits) => println!(rt; "gate {gate} {first}/{bits} {outside}")?,
        None => println!(rt; "gate {gate} no prefix {outside}")?,
    }
    Ok(())
}

/// Prints settings: own number, life, most, window, and a line for each gate, without keys.
pub fn show(rt: &impl Print, settings: &Settings) -> anyhow::Result<()> {
    let own = settings.own();
    let plan = settings.plan();
    let life = plan.life();
    let most = plan.most();
    println!(rt; "own {own}")?;
    println!(rt; "life {life}")?;
    println!(rt; "most {most}")?;
    println!(rt; "window 2048")?;
    for gate in 0..plan.gates() {
        show_gate(rt, plan, gate)?;
    }
    Ok(())
}
