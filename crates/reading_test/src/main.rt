// reading_test FILE..
//
// Prints how each source is read: the entries of its symbols, three each, and those of its tree, in rows after the position of their
// first; or its refusal.
#![tactic(auto)]

ghost use Rattle.std.specs.Prelude.{◌<◌};

use messages::{EprintBytes, NAME_ROOM};
use std::rt::{Env, Files};
use symbols::Unread;
use tree::Unparsed;

// So many bytes of a source are read.
const SOURCE_ROOM: usize = 65536;

// Eight entries a byte of the longest source, and 64.
const SCRATCH: usize = 131136;

fn say_refused(rt: &impl Print, source: &[u8], number: u16, place: usize) {
    let refusal = text::refuse(source, number, place);
    let _ = println!(rt; "{refusal}");
}

// Rows of so many entries, each after the position of its first.
fn print_rows(rt: &impl Print, entries: &[u32], length: usize)
    requires { 0 < length }
{
    for (n, row) in entries.chunks(length).enumerate() {
        let at = n * length;
        let _ = print!(rt; "{at}:");
        for entry in row {
            let _ = print!(rt; " {entry}");
        }
        let _ = println!(rt);
    }
}

// Three symbols a row.
fn print_symbols(rt: &impl Print, scratch: &[u32], count: usize) {
    let _ = println!(rt; "{count} symbols");
    if count <= scratch.len() / 3 {
        print_rows(rt, &scratch[..count * 3], 9);
    }
}

// The tree stands behind so many symbols.
fn print_tree(rt: &impl Print, scratch: &[u32], count: usize, end: usize) {
    if end / 3 < count {
        return;
    }
    let start = count * 3;
    let _ = println!(rt; "tree of {} entries", end - start);
    if end <= scratch.len() {
        print_rows(rt, &scratch[start..end], 8);
    }
}

fn show(rt: &impl Print, source: &[u8]) {
    let mut scratch = [0; SCRATCH];
    match symbols::read_symbols(source, &mut scratch) {
        Err(Unread::TooLong) => {
            let _ = println!(rt; "too long");
        }
        Err(Unread::TooShort) => {
            let _ = println!(rt; "scratch too short");
        }
        Err(Unread::Refused { fault, place }) => { say_refused(rt, source, fault.number(), place) }
        Ok(count) => {
            print_symbols(rt, &scratch, count);
            match tree::read_tree(&mut scratch, count, source.len()) {
                Err(Unparsed::TooShort) => {
                    let _ = println!(rt; "scratch too short");
                }
                Err(Unparsed::Refused { fault, place }) => {
                    say_refused(rt, source, fault.number(), place)
                }
                Ok(end) => print_tree(rt, &scratch, count, end),
            }
        }
    }
}

fn show_argument(rt: &(impl Env + EprintBytes + Files + Print), at: usize) {
    let mut name = [0; NAME_ROOM];
    let n = rt.arg(at, &mut name).unwrap_or(0);
    let path = &name[..n];
    match messages::open(rt, path) {
        Ok(mut file) => {
            let mut source = [0; SOURCE_ROOM];
            let n = messages::read_full(&mut file, &mut source);
            let _ = rt.write_all(path);
            let _ = println!(rt; ":");
            show(rt, &source[..n]);
        }
        Err(e) => messages::fail(rt, path, &e),
    }
}

fn main(rt: HostRuntime) {
    for at in 1..messages::arg_count(&rt) {
        show_argument(&rt, at);
    }
}
