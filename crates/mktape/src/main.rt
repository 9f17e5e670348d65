#![tactic(auto)]

// Turns the text on standard input into a tape on standard output.
use anyhow::anyhow;
use listing::make::make_tape;
use std::env;
use std::io::{Read, Write};
use tape::read::MOST_BYTES;

const HELP: &str = "\
usage: mktape < TEXT > TAPE

Turns text into a tape. The first line with words is `book B products P kind plain` (or strict);
each later one is a record: `O` and the prices, `T` and the quantities, `C`, `W`, `S` or `V`.
Words are separated by blanks, `#` starts a comment, and lines with no words are passed over.
A bad line is named on standard error, and the status is then 1.
";

// As in `tapelist`: a crate for these few lines alone would be no plainer.
fn asked_for_help(rt: &HostRuntime) -> anyhow::Result<bool> {
    match env::args(rt)?.nth(1) {
        Some(arg) if arg.as_str() == "--help" => Ok(true),
        Some(_) => Err(anyhow!(
            "mktape takes a text on standard input, and no argument but --help"
        )),
        None => Ok(false),
    }
}

fn run(rt: &HostRuntime) -> anyhow::Result<()> {
    if asked_for_help(rt)? {
        rt.print(HELP)?;
        return Ok(());
    }
    let mut text = Vec::new(rt.alloc());
    rt.stdin().read_to_end(&mut text)?;
    let mut tape = vec![in rt.alloc(); 0u8; MOST_BYTES]?;
    let len = make_tape(&text, &mut tape)?;
    rt.stdout().write_all(&tape[..len])?;
    Ok(())
}

fn main(rt: HostRuntime) -> anyhow::Result<()> {
    run(&rt)
}
