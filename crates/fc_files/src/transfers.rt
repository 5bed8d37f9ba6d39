// Reads and writes of whole pieces, at any reader and writer, with the answers that they end with.
ghost use Rattle.std.specs.Prelude.{◌≡◌, ◌<◌, ◌≤◌, ◌+◌, Some, IfSome, IfOk, IfErr, OnOk, length, take};
ghost use Rattle.std.specs.IoError.{error_kind};
ghost use Rattle.std.specs.Io.KnownBytes.{Appends, WriteAppends};
ghost use Rattle.fc_files.specs.Outside.{IsWithin, Reads};
ghost use Rattle.fc_files.specs.Answers.{answer_of_open_error, answer_of_write_error};
ghost use Rattle.fc_files.specs.Transfers.{AppendsPart, IsFromFile, IsInFile};

use crate::answers::{
    put_answer, read_answer, read_answer_of_open_error, write_answer, write_answer_of_error,
};
use crate::{PutAnswer, ReadAnswer, WriteAnswer};
use std::alloc::Global;
use std::io;
use std::io::{ErrorKind, Read, Write};

// The bytes of an open file up to its end, or one more than `most` of them.
fn read_up_to<F: Read + Drop>(alloc: Global, file: F, most: u64) -> io::Result<Vec<u8>>
    requires { most < u64.MAX }
    ensures { IfOk result
        (λ bytes. IfSome (F.remaining file) (λ left. bytes.items ≡ take (most + 1) left)) }
{
    let mut bytes = Vec::new(alloc);
    file.take(most + 1).read_to_end(&mut bytes)?;
    Ok(bytes)
}

// All bytes of an open file. At most one byte more than `most` is taken from it.
fn read_all<F: Read + Drop>(alloc: Global, file: F, most: u64) -> ReadAnswer
    requires { most < u64.MAX }
    ensures within { IsWithin result most }
    ensures bytes { IfSome (F.remaining file) (λ left. Reads (Some left) most result) }
    ensures found { result ≡ ReadAnswer.Absent → ⊥ }
{
    read_answer(read_up_to(alloc, file, most), most)
}

// All bytes of a file that was opened, or the answer where it was not.
pub(crate) fn read_opened<F: Read + Drop>(
    alloc: Global,
    opened: io::Result<F>,
    most: u64,
) -> ReadAnswer
    requires { most < u64.MAX }
    ensures within { IsWithin result most }
    ensures bytes { IfOk opened
        (λ file. IfSome (F.remaining file) (λ left. Reads (Some left) most result)) }
    ensures found { IfOk opened (λ _. result ≡ ReadAnswer.Absent → ⊥) }
    ensures from_file { IsFromFile F.remaining most result }
    ensures error { IfErr opened (λ error. result ≡ answer_of_open_error (error_kind error)) }
{
    match opened {
        Ok(file) => read_all(alloc, file, most),
        Err(error) => read_answer_of_open_error(error.kind()),
    }
}

// One write, tried again where a signal interrupts it.
fn write_some<W: Write>(to: &mut W, bytes: &[u8]) -> io::Result<usize>
    ensures within { IfOk result (λ count. count ≤ length bytes.now) }
    ensures bytes { WriteAppends (W.contents to.old) (W.contents to.new) result bytes.now }
{
    'tries: for _ in 0..u64::MAX {
        match to.write(bytes) {
            Ok(count) => return Ok(count),
            Err(error) => {
                if error.kind() != ErrorKind::Interrupted {
                    return Err(error);
                }
            }
        }
    }
    Err(ErrorKind::TimedOut.into())
}

// Writes the bytes from the front on, up to the first error.
fn write_in_order<W: Write>(to: &mut W, bytes: &[u8]) -> io::Result<()>
    ensures whole { OnOk result (Appends (W.contents to.old) (W.contents to.new) bytes.now) }
    ensures part { AppendsPart (W.contents to.old) (W.contents to.new) bytes.now }
{
    let mut written = 0;
    while written < bytes.len() {
        let count = write_some(to, &bytes[written..])?;
        if count == 0 {
            return Err(ErrorKind::WriteZero.into());
        }
        written += count;
    }
    Ok(())
}

// Writes all bytes, through any buffer on the way, so that a fault shows now and not later.
fn write_through<W: Write>(to: &mut W, bytes: &[u8]) -> io::Result<()>
    ensures whole { OnOk result (Appends (W.contents to.old) (W.contents to.new) bytes.now) }
    ensures part { AppendsPart (W.contents to.old) (W.contents to.new) bytes.now }
{
    write_in_order(to, bytes)?;
    to.flush()
}

// Writes all bytes into a file that was opened, or gives the answer where it was not.
pub(crate) fn write_opened<W: Write>(opened: &mut io::Result<W>, bytes: &[u8]) -> WriteAnswer
    ensures whole { result ≡ WriteAnswer.Ok → IfOk opened.old (λ old. IfOk opened.new
        (λ new. Appends (W.contents old) (W.contents new) bytes.now)) }
    ensures part { IfOk opened.old (λ old. IfOk opened.new
        (λ new. AppendsPart (W.contents old) (W.contents new) bytes.now)) }
    ensures in_file { result ≡ WriteAnswer.Ok → IsInFile W.contents bytes.now }
    ensures error { IfErr opened.old
        (λ error. result ≡ answer_of_write_error (error_kind error)) }
{
    match opened {
        Ok(file) => write_answer(write_through(file, bytes)),
        Err(error) => write_answer_of_error(error.kind()),
    }
}

// Puts the whole piece, and answers how that ended.
pub(crate) fn put_into<W: Write>(to: &mut W, bytes: &[u8]) -> PutAnswer
    ensures whole { result ≡ PutAnswer.Ok
        → Appends (W.contents to.old) (W.contents to.new) bytes.now }
    ensures part { AppendsPart (W.contents to.old) (W.contents to.new) bytes.now }
{
    put_answer(write_through(to, bytes))
}
