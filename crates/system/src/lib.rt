// The system as a program meets it: a file opened, bytes read, bytes written.
//
// No contract can say which bytes a read gives, or what becomes of bytes that are written. So each call here leaves a mark in its contract, which
// comes from these functions alone (specs/Marks): these bytes were given by a read, those were handed to a write.
#![tactic(auto)]

ghost use Rattle.io.specs.Counts.{IsPrefixLen};
ghost use Rattle.std.specs.Prelude.{◌≤◌, length};
ghost use Rattle.system.specs.Marks.{FileOpened, FileClosed, WriteTold, ErrorTold, ReadAt, ReadFull, FileGiven};

use std::fs;
use std::io::{Print, Read, Stderr, Stdout};

// A file that was opened for reading, or nothing where it can't be opened.
#[derive(Drop)]
pub struct File {
    opened: Option<fs::File>,
}

// A path of the system's is text here: of any other nothing is opened.
fn open_path(rt: &HostRuntime, path: &[u8]) -> Option<fs::File> {
    let text = str::from_utf8(path).ok()?;
    fs::open(rt, text).ok()
}

// Opens a file for reading. Of one that can't be opened every read fails.
pub fn open(rt: &HostRuntime, path: &[u8]) -> File
    ensures { FileOpened path.now result }
{
    File {
        opened: open_path(rt, path),
    }
}

// One read. Answers how many bytes came: 0 at the end, and where the read fails.
fn read_once(file: &File, input: &mut [u8]) -> usize
    ensures { IsPrefixLen result input.new }
{
    match &file.opened {
        Some(opened) => {
            let mut reader = opened;
            reader.read(input).unwrap_or(0)
        }
        None => 0,
    }
}

// Reads once, into `input` from `at` on. Answers how many bytes came; 0 at the end, and where the read fails.
pub fn read_at(file: &File, input: &mut [u8], at: usize) -> usize
    requires { at ≤ length input.old }
    ensures { ReadAt file.now at input.old input.new result }
{
    read_once(file, &mut input[at..])
}

// Reads until `input` is full, the file ends or a read fails. Answers how many bytes came.
pub fn read_full(file: &File, input: &mut [u8]) -> usize
    ensures { ReadFull file.now input.new result }
{
    let mut done: usize = 0;
    // Kept: a `for` is no plainer, since how far a turn goes is for the system to say.
    while done < input.len() {
        let got = read_once(file, &mut input[done..]);
        if got == 0 {
            break;
        }
        done += got;
    }
    done
}

// Hands all of the bytes over, or stops at the first call that takes nothing or fails, for a signal too. Answers whether all were taken.
fn hand_over(to: &impl Print, bytes: &[u8]) -> bool {
    let mut done: usize = 0;
    // Kept: a `for` is no plainer, since how far a turn goes is for the system to say.
    while done < bytes.len() {
        let taken = to.write_some(&bytes[done..]).unwrap_or(0);
        if taken == 0 {
            return false;
        }
        done += taken;
    }
    true
}

// Hands bytes to standard output. Answers whether all were taken.
pub fn write(to: Stdout, bytes: &[u8]) -> bool
    ensures { WriteTold bytes.now result }
{
    hand_over(&to, bytes)
}

// Hands bytes to standard error. Answers whether all were taken.
pub fn write_error(to: Stderr, bytes: &[u8]) -> bool
    ensures { ErrorTold bytes.now result }
{
    hand_over(&to, bytes)
}

// Closes a file. Nothing more is read of it.
pub fn close(file: File)
    ensures { FileClosed file }
{
    drop(file);
}

// Opens a file, reads it until `input` is full or the file ends, and closes it. Answers how many bytes came; of a file that can't be opened none do.
pub fn read_file(rt: &HostRuntime, path: &[u8], input: &mut [u8]) -> usize
    ensures given { FileGiven path.now input.new result }
    ensures prefix_len { IsPrefixLen result input.new }
{
    let file = open(rt, path);
    let n = read_full(&file, input);
    close(file);
    n
}
