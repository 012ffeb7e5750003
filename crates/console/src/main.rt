// The console: tables and requests as lines of text, from standard input to standard output.
#![tactic(auto)]

mod asking; // asking.rt: what a line asks for
mod command; // command.rt: that it is done
mod line; // line.rt: a line, read byte by byte
mod output; // output.rt: text that is written
mod estate; // estate.rt: a tenant's estate
mod show; // show.rt: the tables as text
mod tree; // tree.rt: the derivation tree, drawn

use crate::command::Desk;
use crate::line::Line;
use crate::output::Pen;
use std::io::{Read, Write};

// How many bytes are read at once, at most.
const CHUNK: usize = 65536;

// How many bytes are written at once, at most.
const PAGE: usize = 65536;

// How many words the largest table has.
const WORDS: usize = 32768;

// What is kept from byte to byte: the desk, and the line so far.
#[derive(Clone, Copy)]
struct Session {
    desk: Desk<WORDS>,
    line: Line,
}

impl Session {
    // The line is whole: what it asks for is done, and the next one begins.
    fn end_line<W: Write, const PAGE: usize>(&mut self, pen: &mut Pen<W, PAGE>) {
        self.line.whole();
        self.desk.obey(&self.line, pen);
        self.line = Line::new();
    }

    // Bytes of the input. What is to be written for them is handed on.
    fn feed<W: Write, const PAGE: usize>(&mut self, bytes: &[u8], pen: &mut Pen<W, PAGE>) {
        for &byte in bytes {
            match byte {
                b'\n' => self.end_line(pen),
                _ => self.line.step(byte),
            }
        }
        pen.flush();
    }
}

// Reads to the end of the input, which a read that fails is too, or until a write has failed. The end is taken as a line feed, so that a last
// line needs none. A proved loop has to end, and nothing says that the input does: so the turns are counted, up to a number that no run reaches.
fn run<R: Read, W: Write, const PAGE: usize>(input: &mut R, pen: &mut Pen<W, PAGE>) {
    let mut session = Session {
        desk: Desk::new(),
        line: Line::new(),
    };
    let mut chunk = [0u8; CHUNK];
    for _ in 0..u64::MAX {
        match input.read(&mut chunk) {
            Ok(count) if 0 < count => session.feed(&chunk[..count], pen),
            _ => return session.feed(b"\n", pen),
        }
        if pen.has_lost() {
            return;
        }
    }
}

// A write that fails ends the program, and is no failure of its own.
fn main(rt: HostRuntime) {
    run(&mut rt.stdin(), &mut Pen::<_, PAGE>::new(rt.stdout()));
}
