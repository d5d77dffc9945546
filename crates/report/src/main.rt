// Reports what a window finds in a fragment: report DESCRIPTION FOOTER TREE OFFSETS, four files. The work is in
// `report_text`.
#![tactic(auto)]

ghost use Rattle.std.specs.Prelude.{◌≤◌, length, IfOk, IfSome};

use std::env::{Env, FillError};
use std::fs::File;
use std::io::{Read, Write};
use std::{fs, io};

// Why a file is not read.
#[derive(Drop)]
enum Trouble {
    EmptyArgument,
    NotUtf8,
    Io(io::Error),
}

impl From<io::Error> for Trouble {
    fn from(error: io::Error) -> Trouble {
        Trouble::Io(error)
    }
}

// A line to standard error that names an argument and says what is wrong with it.
fn complain(rt: &HostRuntime, what: &[u8], wrong: &[u8]) {
    let _ = rt.stderr().write_all(what);
    let _ = rt.stderr().write_all(b": ");
    let _ = rt.stderr().write_all(wrong);
    let _ = rt.stderr().write_all(b"\n");
}

// A line to standard error that names what failed and says why, in the system's words.
fn fail(rt: &HostRuntime, what: &[u8], error: io::Error) {
    let mut space = [0u8; 128];
    let mut rest: &mut [u8] = &mut space;
    let _ = write!(rest, "{error}");
    let n = 128usize.saturating_sub(rest.len());
    let text = str::from_utf8(&space[..n]).unwrap_or("");
    complain(rt, what, words(text).as_bytes());
}

// The text of an error without the number that follows it.
fn words(text: &str) -> &str {
    match text.split_once(" (os error ") {
        Some((words, _)) => words,
        None => text,
    }
}

// The line of a file that is not read.
fn say(rt: &HostRuntime, what: &[u8], trouble: Trouble) {
    match trouble {
        Trouble::EmptyArgument => complain(rt, what, b"the argument is empty"),
        Trouble::NotUtf8 => complain(rt, what, b"the path is not UTF-8"),
        Trouble::Io(error) => fail(rt, what, error),
    }
}

// As much of an open file as the buffer takes. A read that gets nothing has come to the end of the file.
fn read_full(file: &mut File, buf: &mut [u8]) -> io::Result<usize>
    ensures { IfOk result (λ n. n ≤ length buf.new) }
{
    let mut done: usize = 0;
    while done < buf.len() {
        let n = file.read(&mut buf[done..])?;
        if n == 0 {
            break;
        }
        done += n;
    }
    Ok(done)
}

// Files are opened by names that are UTF-8, and by no others.
fn load(rt: &HostRuntime, path: &[u8], buf: &mut [u8]) -> Result<usize, Trouble>
    ensures { IfOk result (λ n. n ≤ length buf.new) }
{
    let Ok(name) = str::from_utf8(path) else {
        return Err(Trouble::NotUtf8);
    };
    let mut file = fs::open(rt, name)?;
    let count = read_full(&mut file, buf)?;
    Ok(count)
}

// The system's numbers for an argument that is missing, and for one that is too long for a path.
const MISSING: i32 = 22;

const TOO_LONG: i32 = 36;

fn argument_error(error: FillError) -> io::Error {
    match error {
        FillError::NotPresent => io::Error::from_raw_os_error(MISSING),
        FillError::TooLong => io::Error::from_raw_os_error(TOO_LONG),
    }
}

// The bytes of an argument.
fn argument(rt: &HostRuntime, i: usize, path: &mut [u8]) -> Result<usize, Trouble>
    ensures { IfOk result (λ n. n ≤ length path.new) }
{
    match rt.arg(i, path) {
        Ok(0) => Err(Trouble::EmptyArgument),
        Ok(n) => Ok(n),
        Err(error) => Err(Trouble::Io(argument_error(error))),
    }
}

// The file that an argument names, or else a line that says why it is not read. The line says what the argument stands
// for where it is too long for a path, or empty.
fn read_file(rt: &HostRuntime, i: usize, what: &[u8], buf: &mut [u8]) -> Option<usize>
    ensures { IfSome result (λ n. n ≤ length buf.new) }
{
    let mut path = [0u8; 4_096];
    match argument(rt, i, &mut path) {
        Ok(n) => read_path(rt, &path[..n], buf),
        Err(trouble) => {
            say(rt, what, trouble);
            None
        }
    }
}

fn read_path(rt: &HostRuntime, path: &[u8], buf: &mut [u8]) -> Option<usize>
    ensures { IfSome result (λ n. n ≤ length buf.new) }
{
    match load(rt, path, buf) {
        Ok(count) => Some(count),
        Err(trouble) => {
            say(rt, path, trouble);
            None
        }
    }
}

// One byte more than a file may have.
fn file_buffer() -> [u8; 65_537] {
    [0u8; 65_537]
}

// The bytes of the text that are written at a time, so that the stack has room for them.
const PART: usize = 65_536;

// Writes the part of the text from a byte on, and says whether there may be more.
fn print_from(
    rt: &HostRuntime,
    description: &[u8],
    footer: &[u8],
    tree: &[u8],
    offsets: &[u8],
    from: usize,
) -> io::Result<bool> {
    let mut out = [0u8; PART];
    let count = report_text::report_from(description, footer, tree, offsets, from, &mut out);
    if count <= from {
        return Ok(false);
    }
    let n = answers::lesser(count - from, PART);
    rt.stdout().write_all(&out[..n])?;
    Ok(true)
}

// The text part by part. `report_from` promises that no text has more than 11.
fn print_report(
    rt: &HostRuntime,
    description: &[u8],
    footer: &[u8],
    tree: &[u8],
    offsets: &[u8],
) -> io::Result<()> {
    for part in 0..11 {
        if !print_from(rt, description, footer, tree, offsets, part * PART)? {
            break;
        }
    }
    Ok(())
}

// All four files, and the report of them. Where a file is not read, a line has said why.
fn run(rt: &HostRuntime) -> Option<()> {
    let mut description = file_buffer();
    let a = read_file(rt, 1, b"DESCRIPTION", &mut description)?;
    let mut footer = file_buffer();
    let b = read_file(rt, 2, b"FOOTER", &mut footer)?;
    let mut tree = file_buffer();
    let c = read_file(rt, 3, b"TREE", &mut tree)?;
    let mut offsets = file_buffer();
    let d = read_file(rt, 4, b"OFFSETS", &mut offsets)?;
    let printed = print_report(
        rt,
        &description[..a],
        &footer[..b],
        &tree[..c],
        &offsets[..d],
    );
    if let Err(error) = printed {
        fail(rt, b"standard output", error);
    }
    Some(())
}

// Whether there is an argument of that number. Number 0 is the program's name.
fn is_given(rt: &HostRuntime, i: usize) -> bool {
    let mut start = [0u8; 1];
    !matches!(rt.arg(i, &mut start), Err(FillError::NotPresent))
}

// An argument past the fourth is named; where one is missing, a line says how the program is called.
fn main(rt: HostRuntime) {
    if !is_given(&rt, 4) {
        let usage = b"usage: report DESCRIPTION FOOTER TREE OFFSETS\n";
        let _ = rt.stderr().write_all(usage);
        return;
    }
    if is_given(&rt, 5) {
        let mut extra = [0u8; 4_096];
        let n = rt.arg(5, &mut extra).unwrap_or(0);
        complain(&rt, &extra[..n], b"one argument too many");
        return;
    }
    let _ = run(&rt);
}
