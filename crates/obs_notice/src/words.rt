// The words behind the program's own name.
ghost use Rattle.std.specs.Prelude.{◌≡◌, ◌≢◌, Ok, Err, IsOkAnd, MatchResult, vec_len};
ghost use Rattle.std.specs.IoError.{error_kind};

use obs_files::Status;
use std::alloc::{AllocError, Global};
use std::env;
use std::io::{self, ErrorKind};
use std::rt::Env;

/// The words behind the program's own name.
pub fn words_of(rt: &(impl Env + AllocGlobal)) -> io::Result<Vec<String>> {
    let mut all = env::args(rt)?;
    let _program = all.next();
    let mut words = Vec::new(rt.alloc());
    for word in all {
        words.push(word).map_err(AllocError::from)?;
    }
    Ok(words)
}

/// What is to be run: the words, no words where they can't be read, or for want of memory nothing, with the status that
/// says so.
pub fn or_status(alloc: Global, words: io::Result<Vec<String>>) -> Result<Vec<String>, Status>
    ensures words { MatchResult words (λ all. result ≡ Ok all) (λ error.
        (error_kind error ≡ ErrorKind.OutOfMemory → result ≡ Err Status.NoMemory)
        × (error_kind error ≢ ErrorKind.OutOfMemory → IsOkAnd result (λ none. vec_len none ≡ 0))) }
{
    match words {
        Ok(all) => Ok(all),
        Err(error) => {
            if error.kind() == ErrorKind::OutOfMemory {
                return Err(Status::NoMemory);
            }
            Ok(Vec::new(alloc))
        }
    }
}
