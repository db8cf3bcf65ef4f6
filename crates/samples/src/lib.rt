// What the programs over stored files print around what they run: the file's name before it, the status after it.
#![tactic(auto)]

use manners::Ending;
use std::fmt::InlineText;
use std::io::{Read, Write};
use std::rt::{Env, Files};
use std::{fs, io};

// The system's number of the error where no file is open.
const BAD_DESCRIPTOR: i32 = 9;

pub fn say<W: Write>(to: &mut W, text: &[u8]) {
    let _ = to.write_all(text);
}

// The name that one argument says; none where there is no such argument, or it is longer than the memory for it or no text.
pub fn named<'a, R: Env>(rt: &R, index: usize, name: &'a mut [u8; 4096]) -> Option<&'a str> {
    match rt.arg(index, name) {
        Ok(length) => str::from_utf8(&name[..length]).ok(),
        Err(_) => None,
    }
}

// A stored file; one that could not be opened fails when it is read.
#[derive(Drop)]
pub struct Stored<F> {
    file: Option<F>,
}

impl<F> Stored<F> {
    pub fn is_open(&self) -> bool {
        self.file.is_some()
    }
}

impl<F: Read> Read for Stored<F> {
    fn read(&mut self, buf: &mut [u8]) -> io::Result<usize> {
        match &mut self.file {
            Some(file) => file.read(buf),
            None => Err(io::Error::from_raw_os_error(BAD_DESCRIPTOR)),
        }
    }
}

// Says what follows, and opens the file; where that fails, it says so on standard error.
pub fn open<R: Files + Eprint, W: Write>(
    rt: &R,
    to: &mut W,
    name: &str,
    blocks: u64,
    what: &[u8],
) -> Stored<R::File> {
    say(to, name.as_bytes());
    let _ = write!(to, ", blocks of {blocks}");
    say(to, what);
    opened(rt, name)
}

// A file; where it cannot be opened, it says so on standard error.
pub fn opened<R: Files + Eprint>(rt: &R, name: &str) -> Stored<R::File> {
    match fs::open(rt, name) {
        Ok(file) => Stored { file: Some(file) },
        Err(e) => {
            tell(rt, name, e);
            Stored { file: None }
        }
    }
}

// A line on standard error: the file's name, and the system's words for the error.
fn tell<R: Eprint>(rt: &R, name: &str, error: io::Error) {
    let text: InlineText<256> = InlineText::of(error);
    let words = manners::words_of(text.as_str());
    let _ = rt.eprintln(format_args!("{name}: {words}"));
}

// Runs something on each stored file that the arguments name.
pub fn each<R: Env, F: FnMut(&str)>(rt: &R, mut run: F)
    requires { F.IsAlwaysCallable run }
{
    for index in 1..64 {
        let mut memory = [0u8; 4096];
        match named(rt, index, &mut memory) {
            Some(name) => run(name),
            None => return,
        }
    }
}

// Prints what a program puts out for a stored file that it reads through blocks of this size, and the status.
pub fn print<R, W, F>(rt: &R, to: &mut W, name: &str, blocks: u64, copy: F)
where
    R: Files + Eprint,
    W: Write,
    F: FnOnce(&mut Stored<R::File>, &mut W) -> Ending,
    requires { F.IsAlwaysCallable copy }
{
    let mut file = open(rt, to, name, blocks, b"\n");
    if file.is_open() {
        let ending = copy(&mut file, to);
        end(to, ending);
    }
}

// The same for a program of two channels, each run by itself: the packets, then the report and the status. What is not printed goes nowhere.
pub fn print_both<R, W, F, G>(
    rt: &R,
    to: &mut W,
    size: Option<&str>,
    name: &str,
    blocks: u64,
    packets: F,
    report: G,
)
where
    R: Files + Eprint,
    W: Write,
    F: FnOnce(&mut Stored<R::File>, &mut W) -> Ending,
    G: FnOnce(&mut Stored<R::File>, &mut W) -> Ending,
    requires packets { F.IsAlwaysCallable packets }
    requires report { G.IsAlwaysCallable report }
{
    say_size(to, size);
    let mut file = open(rt, to, name, blocks, b": packets\n");
    packets(&mut file, to);
    say(to, b"\n");
    say_size(to, size);
    let mut again = open(rt, to, name, blocks, b": report\n");
    let ending = report(&mut again, to);
    end(to, ending);
}

// Says the payload size that was given, if one was.
fn say_size<W: Write>(to: &mut W, size: Option<&str>) {
    if let Some(word) = size {
        let _ = write!(to, "size {word}, ");
    }
}

// Says the status of a program that ended so.
pub fn end<W: Write>(to: &mut W, ending: Ending) {
    let status = manners::status_of(ending);
    let _ = writeln!(to, "status {status}");
}
