// Whole files read into lent buffers, written from them, and removed, for the programs. What fails is said on standard error, by the file's name.
#![tactic(auto)]

ghost use Rattle.std.specs.Prelude.{◌≡◌, ◌+◌, ◌<◌, ◌≤◌, [], ◌∷◌, ◌++◌, length, take, is_ok, IfOk, IfSome, OnOk};
ghost use Rattle.std.specs.Io.KnownBytes.{Appends, Consumes, IsAtEnd};
ghost use Rattle.io.specs.Counts.{IsPrefixLen};
ghost use Rattle.text.specs.Texts.{Numbered, most_digits};

use std::fs::{File, OpenFile, OpenOptions};
use std::io::{ErrorKind, Read, Write};
use std::random::RandomSource;
use std::rt::Files;
use std::{fs, io, str};
use text::{MOST_DIGITS, Text};

// A path's bytes as text: std names files by nothing else.
fn as_text(path: &[u8]) -> io::Result<&str>
    ensures { IfOk result (λ text. text.now ≡ path.now) }
{
    match str::from_utf8(path) {
        Ok(text) => Ok(text),
        Err(_) => Err(io::Error::from(ErrorKind::InvalidFilename)),
    }
}

// ---- Reading

// Reads the file into the front of `buf`, and answers how much of it that is. A missing file is empty. One that cannot be read is said so, and gives none.
// A length and no part of `buf`: of what a buffer holds while its part is lent on, no clause can speak.
pub fn load(rt: &(impl Files + Eprint), path: &[u8], buf: &mut [u8]) -> Option<usize>
    ensures { IfSome result (λ len. IsPrefixLen len buf.new) }
{
    match read_file(rt, path, buf) {
        Ok(len) => Some(len),
        Err(error) => {
            text::fail(rt, path, error);
            None
        }
    }
}

fn read_file(rt: &impl Files, path: &[u8], buf: &mut [u8]) -> io::Result<usize>
    ensures { IfOk result (λ n. IsPrefixLen n buf.new) }
{
    match File::open(rt, as_text(path)?) {
        Ok(mut file) => read_whole(&mut file, buf),
        Err(error) if error.kind() == ErrorKind::NotFound => Ok(0),
        Err(error) => Err(error),
    }
}

// Reads to the file's end, or until the buffer is full, which is enough: callers lend one longer than what they accept. A read that gives nothing is the end.
// A loop, since no method of std reads so: `read_exact` refuses a short file, and `read_to_end` wants a `Vec`.
fn read_whole<F: Read>(file: &mut F, buf: &mut [u8]) -> io::Result<usize>
    ensures prefix_len { IfOk result (λ n. IsPrefixLen n buf.new) }
    ensures bytes { IfOk result (λ n. Consumes (F.remaining file.old) (F.remaining file.new) (take n buf.new)) }
    ensures end { IfOk result (λ n. n < length buf.new → IsAtEnd (F.remaining file.new)) }
{
    let mut done = 0;
    while done < buf.len() {
        let more = file.read(&mut buf[done..])?;
        if more == 0 {
            return Ok(done);
        }
        done += more;
    }
    Ok(done)
}

// ---- Writing

// The longest path that is written, and what its temporary file's name adds: a dot and a number.
const LONGEST_PATH: usize = 64;

const LONGEST_NAME: usize = LONGEST_PATH + 1 + MOST_DIGITS;

// Writes the bytes as the whole file, whatever it was before, and answers true; or says why it cannot, and the file is as it was. The bytes go to a temporary file beside it
// first, which then takes its name, so that nobody finds a part of them, even where two programs write at once. Where the program is killed before that, the temporary file stays.
// A symbolic link is replaced, not followed.
pub fn save(rt: &(impl Files + RandomSource + Eprint), path: &[u8], bytes: &[u8]) -> bool
    requires { length path.now ≤ 64 }
{
    let name: Text<LONGEST_NAME> = name_beside(path, random(rt));
    told(rt, path, replace(rt, path, name.as_bytes(), bytes))
}

// Says what failed, if anything did, and answers whether all was well. A flag and no result, here and where it is passed on: what failed has been told.
fn told(rt: &impl Eprint, path: &[u8], ended: io::Result<()>) -> bool
    ensures { result ≡ is_ok ended }
{
    if let Err(error) = ended {
        text::fail(rt, path, error);
        return false;
    }
    true
}

// A name beside the path, with a number, so that each program has a file of its own.
fn name_beside<const N: usize>(path: &[u8], number: u64) -> Text<N>
    requires { length path.now + 1 + most_digits ≤ N }
    ensures { Numbered (path.now ++ 46 ∷ []) number result }
{
    let mut name = Text::new();
    name.put_word(path);
    name.put_word(b".");
    name.put_number(number);
    name
}

// Where the system has no random bytes, 0: a name that is taken is refused, and no other program's file is written.
fn random(rt: &impl RandomSource) -> u64 {
    let mut bytes = [0u8; 8];
    match rt.fill_bytes(&mut bytes) {
        Ok(()) => u64::from_le_bytes(bytes),
        Err(_) => 0,
    }
}

// A new file is made, which is refused where the name is taken, written, and given the path. Where that fails, it is removed.
fn replace(rt: &impl Files, path: &[u8], temporary: &[u8], bytes: &[u8]) -> io::Result<()> {
    let path = as_text(path)?;
    let temporary = as_text(temporary)?;
    let file = OpenOptions::new()
        .write(true)
        .create_new(true)
        .open(rt, temporary)?;
    let ended = put_in_place(rt, file, temporary, path, bytes);
    if ended.is_err() {
        let _ = fs::remove_file(rt, temporary);
    }
    ended
}

// The file is closed before it takes the path.
fn put_in_place<R: Files>(
    rt: &R,
    mut file: R::File,
    temporary: &str,
    path: &str,
    bytes: &[u8],
) -> io::Result<()> {
    fill(&mut file, bytes)?;
    drop(file);
    fs::rename(rt, temporary, path)
}

// Writes all the bytes. They are on the disk before the file takes the path: otherwise a power cut could leave the path with none of them.
fn fill<F: Write + OpenFile>(file: &mut F, bytes: &[u8]) -> io::Result<()>
    ensures { OnOk result (Appends (F.contents file.old) (F.contents file.new) bytes.now) }
{
    file.write_all(bytes)?;
    file.sync_all()
}

// Removes the file, if there is one, and answers true; or says why it cannot.
pub fn remove(rt: &(impl Files + Eprint), path: &[u8]) -> bool {
    told(rt, path, remove_file(rt, path))
}

fn remove_file(rt: &impl Files, path: &[u8]) -> io::Result<()> {
    match fs::remove_file(rt, as_text(path)?) {
        Err(error) if error.kind() == ErrorKind::NotFound => Ok(()),
        ended => ended,
    }
}
