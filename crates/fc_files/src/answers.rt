// Which answers the system's errors become.
ghost use Rattle.std.specs.Prelude.{◌≡◌};
ghost use Rattle.fc_files.specs.Answers.{answer_of_open_error, answer_of_put, answer_of_read};
ghost use Rattle.fc_files.specs.Answers.{answer_of_read_error, answer_of_write};
ghost use Rattle.fc_files.specs.Answers.{answer_of_write_error};

use crate::{PutAnswer, ReadAnswer, WriteAnswer};
use std::io;
use std::io::ErrorKind;

// What a read answers where the file could not be opened.
pub(crate) fn read_answer_of_open_error(kind: ErrorKind) -> ReadAnswer
    ensures { result ≡ answer_of_open_error kind }
{
    match kind {
        ErrorKind::NotFound => ReadAnswer::Absent,
        ErrorKind::OutOfMemory => ReadAnswer::Memory,
        _ => ReadAnswer::Failed,
    }
}

// What a read answers where an open file could not be read to its end.
pub(crate) fn read_answer_of_read_error(kind: ErrorKind) -> ReadAnswer
    ensures { result ≡ answer_of_read_error kind }
{
    match kind {
        ErrorKind::OutOfMemory => ReadAnswer::Memory,
        _ => ReadAnswer::Failed,
    }
}

// What a write answers where the system failed.
pub(crate) fn write_answer_of_error(kind: ErrorKind) -> WriteAnswer
    ensures { result ≡ answer_of_write_error kind }
{
    match kind {
        ErrorKind::OutOfMemory => WriteAnswer::Memory,
        _ => WriteAnswer::Failed,
    }
}

// What a read of at most `most` bytes answers, by what was read of an open file.
pub(crate) fn read_answer(read: io::Result<Vec<u8>>, most: u64) -> ReadAnswer
    ensures { result ≡ answer_of_read read most }
{
    match read {
        Ok(bytes) => {
            if bytes.len() as u64 > most {
                return ReadAnswer::TooLong;
            }
            ReadAnswer::Ok(bytes)
        }
        Err(error) => read_answer_of_read_error(error.kind()),
    }
}

// What a write answers, by how it ended.
pub(crate) fn write_answer(written: io::Result<()>) -> WriteAnswer
    ensures { result ≡ answer_of_write written }
{
    match written {
        Ok(()) => WriteAnswer::Ok,
        Err(error) => write_answer_of_error(error.kind()),
    }
}

// What a put answers, by how it ended. It has no answer for memory: every error is `Failed`.
pub(crate) fn put_answer(put: io::Result<()>) -> PutAnswer
    ensures { result ≡ answer_of_put put }
{
    match put {
        Ok(()) => PutAnswer::Ok,
        Err(_) => PutAnswer::Failed,
    }
}
