// Bytes as text.
use lines::encode;

/// Two hexadecimal digits for each byte.
pub fn hex(rt: &HostRuntime, bytes: &[u8]) -> anyhow::Result<String> {
    Ok(String::from_utf8(encode(rt.alloc(), bytes)?)?)
}

/// Prints a name and the bytes that go with it.
pub fn show(rt: &HostRuntime, name: &str, bytes: &[u8]) -> anyhow::Result<()> {
    let text = hex(rt, bytes)?;
    println!(rt; "{name}: {text}")?;
    Ok(())
}
