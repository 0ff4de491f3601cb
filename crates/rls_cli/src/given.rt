//! The words that the program is given.

ghost use Rattle.std.specs.Prelude.{◌≡◌, List, String, drop, IfOk};
ghost use Rattle.std.specs.declared.alloc.Global.{Global};
ghost use Rattle.std.specs.Iterator.{Drains, IsFinite};

use std::alloc::{AllocError, AllocGlobal, Global};
use std::env::args;
use std::io;
use std::io::ErrorKind;
use std::rt::Env;

/// All of these but the first, in order.
fn behind_first<I: Iterator<Item = String>>(
    alloc: Global,
    all: I,
) -> Result<Vec<String>, AllocError>
    requires can { I.can_next all }
    requires ends { IsFinite (I.remaining all) }
    ensures words { IfOk result (λ words. (xs : List (String Global)) × Drains I.next_gives all xs × (words.items ≡ drop 1 xs)) }
{
    let mut words = Vec::new(alloc);
    let mut is_first = true;
    for word in all {
        if !is_first {
            words.push(word)?;
        }
        is_first = false;
    }
    Ok(words)
}

/// The words after the program's name.
fn told<R: Env + AllocGlobal>(rt: &R) -> io::Result<Vec<String>> {
    Ok(behind_first(rt.alloc(), args(rt)?)?)
}

/// The words after the program's name. If they can't be had, as where one isn't UTF-8, it is one empty word, which is no
/// command.
pub(crate) fn words<R: Env + AllocGlobal>(rt: &R) -> Result<Vec<String>, AllocError> {
    match told(rt) {
        Ok(words) => Ok(words),
        Err(error) if error.kind() == ErrorKind::OutOfMemory => Err(AllocError),
        Err(_) => {
            let mut words = Vec::new(rt.alloc());
            words.push(String::new(rt.alloc()))?;
            Ok(words)
        }
    }
}
