// The line program: an order sheet on standard input, its answers on standard output.
#![tactic(auto)]

use anyhow::anyhow;
use desk::run::run;
use std::io::Read;

/// The longest order sheet, in bytes.
const LONGEST: usize = 32768;

/// Reads the order sheet, carries it out and prints the answers. One that is too long is turned away before anything is printed.
fn serve(rt: &HostRuntime) -> anyhow::Result<()> {
    let mut input: Vec<u8> = Vec::new(rt.alloc());
    rt.stdin().take(LONGEST as u64 + 1).read_to_end(&mut input)?;
    if input.len() > LONGEST {
        return Err(anyhow!("the order sheet is longer than 32768 bytes, so nothing was done"));
    }
    let out = run(rt.alloc(), input.as_slice())?;
    rt.print(&out)?;
    Ok(())
}

fn main(rt: HostRuntime) -> anyhow::Result<()> {
    serve(&rt)
}
