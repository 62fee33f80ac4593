//! The words that a program was given. What they mean is no part of it.
ghost use Rattle.std.specs.Prelude.{◌≡◌, ◌≢◌, [], drop, IfErr, IfOk, IsErr, IsOkAnd};
ghost use Rattle.std.specs.IoError.{error_kind};
ghost use Rattle.std.specs.Vec.Iter.{into_iter_items};

use hp_num::NoMemory;
use std::alloc::Allocator;
use std::env::Args;
use std::io::{self, ErrorKind};

/// The words after the program's name, of what the system answered for all words, or `NoMemory`. Where these
/// can't be had for another cause than memory, or one isn't UTF-8, there are none.
pub fn given_words<A: Allocator>(
    alloc: A,
    all: io::Result<Args<A>>,
) -> Result<Vec<String<A>, A>, NoMemory>
    ensures behind_name { IfOk all (λ all. IfOk result
        (λ words. words.items ≡ drop 1 (into_iter_items all))) }
    ensures none { IfErr all (λ error. error_kind error ≢ ErrorKind.OutOfMemory
        → IsOkAnd result (λ words. words.items ≡ [])) }
    ensures wanting { IfErr all (λ error. error_kind error ≡ ErrorKind.OutOfMemory
        → IsErr result) }
{
    let mut words = Vec::new(alloc);
    match all {
        Ok(mut all) => {
            all.next();
            for word in all {
                words.push(word)?;
            }
            Ok(words)
        }
        Err(error) if error.kind() == ErrorKind::OutOfMemory => Err(NoMemory),
        Err(_) => Ok(words),
    }
}
