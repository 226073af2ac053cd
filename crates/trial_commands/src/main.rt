//! Answers each line of standard input with the text of the command that it spells, or with its fault.
#![tactic(auto)]

use commands::{Command, LONGEST_TEXT, parse, write};
use std::alloc::Global;
use std::io;
use std::io::{BufRead, BufReader, Read, Write};

fn print_command(out: &mut impl Write, command: Command) -> io::Result<()> {
    let mut text = [0; LONGEST_TEXT];
    if let Some(length) = write(command, &mut text) {
        out.write_all(&text[0..length])?;
    }
    out.write_all(b"\n")
}

fn answer_lines(heap: Global, input: impl Read + Drop, out: &mut impl Write) -> io::Result<()> {
    for line in BufReader::new(heap, input)?.split(heap, b'\n') {
        match parse(&line?) {
            Ok(command) => print_command(out, command)?,
            Err(fault) => writeln!(out, "{fault}")?,
        }
    }
    Ok(())
}

fn main(rt: HostRuntime) -> io::Result<()> {
    answer_lines(rt.alloc(), rt.stdin(), &mut rt.stdout())
}
