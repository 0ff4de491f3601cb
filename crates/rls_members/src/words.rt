//! The words of commands.

ghost use Rattle.std.specs.Prelude.{◌≡◌, ◌≤◌, map, string_bytes, codes, [], ◌∷◌, Some, IfOk};
ghost use Rattle.std.specs.Fmt.{decimal};
ghost use Rattle.rls_members.specs.Running.{words_of_new, words_of_send, words_of_take};

use std::alloc::{AllocError, Global};

/// `new GROUP ME MEMBERS`.
pub(crate) fn words_of_new(
    alloc: Global,
    group: u64,
    me: u32,
    members: u32,
) -> Result<Vec<String>, AllocError>
    ensures words { IfOk result (λ words. map string_bytes words.items ≡ words_of_new group me members) }
{
    let mut words = Vec::new(alloc);
    words.push(String::from_str(alloc, "new")?)?;
    words.push(format!(in alloc; "{group}")?)?;
    words.push(format!(in alloc; "{me}")?)?;
    words.push(format!(in alloc; "{members}")?)?;
    Ok(words)
}

/// `send TO`.
pub(crate) fn words_of_send(alloc: Global, to: u32) -> Result<Vec<String>, AllocError>
    ensures words { IfOk result (λ words. map string_bytes words.items ≡ words_of_send to) }
{
    let mut words = Vec::new(alloc);
    words.push(String::from_str(alloc, "send")?)?;
    words.push(format!(in alloc; "{to}")?)?;
    Ok(words)
}

/// `take`.
pub(crate) fn words_of_take(alloc: Global) -> Result<Vec<String>, AllocError>
    ensures words { IfOk result (λ words. map string_bytes words.items ≡ words_of_take) }
{
    let mut words = Vec::new(alloc);
    words.push(String::from_str(alloc, "take")?)?;
    Ok(words)
}
