#![tactic(auto)]

// Prints the tape on standard input as text: a line for its header and for each record.
use anyhow::anyhow;
use listing::list::list_tape;
use std::env;
use std::io::{Read, Write};

const HELP: &str = "\
usage: tapelist < TAPE

Prints the tape on standard input as text: `book B products P kind K`, then a line a record,
as `O 10 20`, `T 2 0` or `C`. Where the tape breaks, the last line is `NO 13` to `NO 16`.
`mktape` turns the text back into the tape.
";

// As in `mktape`: a crate for these few lines alone would be no plainer.
fn asked_for_help(rt: &HostRuntime) -> anyhow::Result<bool> {
    match env::args(rt)?.nth(1) {
        Some(arg) if arg.as_str() == "--help" => Ok(true),
        Some(_) => Err(anyhow!(
            "tapelist takes a tape on standard input, and no argument but --help"
        )),
        None => Ok(false),
    }
}

fn run(rt: &HostRuntime) -> anyhow::Result<()> {
    if asked_for_help(rt)? {
        rt.print(HELP)?;
        return Ok(());
    }
    let mut tape = Vec::new(rt.alloc());
    rt.stdin().read_to_end(&mut tape)?;
    let mut text = Vec::new(rt.alloc());
    list_tape(&tape, &mut text)?;
    rt.stdout().write_all(&text)?;
    Ok(())
}

fn main(rt: HostRuntime) -> anyhow::Result<()> {
    run(&rt)
}
