//! Runs, lists of runs and texts.

use crate::idents::first;
use rls_ident::Ident;
use rls_runs::{PushError, Run, RunList, Runs, Text};
use std::alloc::{AllocError, Global};
use std::test::Fail;

/// The run of this many identifiers from this offset on.
fn run(alloc: Global, offset: i32, len: u32) -> Result<Run, Fail> {
    Ok(Run::new(first(alloc, offset)?, len)?)
}

/// An offset, whether five identifiers touch the one of it, whether they end below it, and where it is found among them.
type Beside = (i32, bool, bool, Result<u32, u32>);

const BESIDE: &[Beside] = &[
    (-1, false, false, Err(0)),
    (3, false, false, Ok(3)),
    (4, false, false, Ok(4)),
    (5, true, true, Err(5)),
    (6, false, true, Err(5)),
];

/// Whether the run is beside an identifier as it is said to be.
fn is_beside(alloc: Global, beside: &Beside) -> Result<bool, Fail> {
    let (offset, touches, below, found) = beside;
    let (run, id) = (run(alloc, 0, 5)?, first(alloc, *offset)?);
    let ends = (run.touches(&id), run.ends_below(&id));
    Ok(ends == (*touches, *below) && run.find(&id) == *found)
}

#[test]
fn runs_have_ends(rt: HostRuntime) -> Result<(), Fail> {
    for beside in BESIDE {
        assert!(rt; is_beside(rt.alloc(), beside)?, "{beside:?}");
    }
    Ok(())
}

/// Whether the list has two runs, of which the second is one identifier of offset 3.
fn has_second(list: &RunList) -> bool {
    if list.len() != 2 || list.as_slice().len() != 2 {
        return false;
    }
    let run = list.get(1);
    run.len() == 1 && run.first().last().offset == 3
}

/// Whether a list has two runs that overlap.
fn overlaps(alloc: Global) -> Result<bool, Fail> {
    let mut list = RunList::new(alloc);
    for (offset, len) in [(0, 5), (3, 1)] {
        list.push(run(alloc, offset, len)?.copy()?)?;
    }
    Ok(has_second(&list))
}

#[test]
fn runs_are_listed(rt: HostRuntime) -> Result<(), Fail> {
    assert!(rt; overlaps(rt.alloc())?);
    Ok(())
}

/// What comes of one identifier that is put after the others.
fn push(alloc: Global, list: &mut Runs, offset: i32) -> Result<Option<PushError>, Fail> {
    let run = Run::new(first(alloc, offset)?, 1)?;
    if list.total() > 9 {
        return Err(Fail::new("total"));
    }
    Ok(list.push(run).err())
}

/// Whether one identifier is put into the list, and after it neither the next one nor the first again.
fn ascends(alloc: Global, list: &mut Runs) -> Result<bool, Fail> {
    let one = push(alloc, list, 0)?;
    let next = push(alloc, list, 1)? == Some(PushError::Touching);
    let again = push(alloc, list, 0)? == Some(PushError::NotAbove);
    Ok(one == None && next && again)
}

#[test]
fn runs_ascend(rt: HostRuntime) -> Result<(), Fail> {
    let mut list = Runs::new(rt.alloc());
    assert!(rt; ascends(rt.alloc(), &mut list)?);
    Ok(())
}

/// Whether the list is one run of five identifiers, which touches this one and is below it.
fn is_five_below(list: &Runs, id: &Ident) -> bool {
    if list.run_count() == 0 || list.run(0).len() != 5 {
        return false;
    }
    list.touches(id) && list.is_above(id) && list.as_slice().len() == 1
}

/// Whether five identifiers are below the next one.
fn is_touched(alloc: Global) -> Result<bool, Fail> {
    let mut list = Runs::new(alloc);
    list.push(Run::new(first(alloc, 0)?, 5)?)?;
    Ok(is_five_below(&list, &first(alloc, 5)?))
}

#[test]
fn runs_are_touched(rt: HostRuntime) -> Result<(), Fail> {
    assert!(rt; is_touched(rt.alloc())?);
    Ok(())
}

/// Joins four identifiers to those of the list.
fn append(alloc: Global, list: &mut Runs) -> Result<(), Fail> {
    let more = Run::new(first(alloc, 1)?, 4)?;
    if list.total() > 9 || !list.is_above(more.first()) {
        return Err(Fail::new("above"));
    }
    Ok(list.append(more)?)
}

/// The list of one identifier and the four after it.
fn joined(alloc: Global) -> Result<Runs, Fail> {
    let mut list = Runs::new(alloc);
    list.push(Run::new(first(alloc, 0)?, 1)?)?;
    append(alloc, &mut list)?;
    Ok(list)
}

/// Whether the identifier of this offset is found so in the list.
fn finds(alloc: Global, list: &Runs, offset: i32, found: Result<u64, u64>) -> Result<bool, Fail> {
    Ok(list.find(&first(alloc, offset)?) == found)
}

/// Whether the identifier at this place has the same offset, and is as far in its run.
fn is_at(list: &Runs, place: u32) -> Result<bool, Fail> {
    if place as u64 >= list.total() {
        return Ok(false);
    }
    let offset = list.get(place as u64)?.last().offset;
    Ok(offset as i64 == place as i64 && list.locate(place as u64).1 == place)
}

/// Whether the list is one run of five identifiers, which are found in it and located.
fn is_joined(alloc: Global, list: &Runs) -> Result<bool, Fail> {
    let whole = list.run_count() == 1 && list.copy()?.total() == 5;
    let found = finds(alloc, list, 3, Ok(3))? && finds(alloc, list, 7, Err(5))?;
    Ok(whole && found && is_at(list, 3)? && is_at(list, 4)?)
}

#[test]
fn runs_are_joined(rt: HostRuntime) -> Result<(), Fail> {
    let list = joined(rt.alloc())?;
    assert!(rt; is_joined(rt.alloc(), &list)?);
    Ok(())
}

/// Whether these are the text's characters.
fn is(text: &Text, characters: &str) -> Result<bool, AllocError> {
    Ok(text.to_utf8()?.as_str() == characters)
}

/// The text of a list of these characters.
fn listed(alloc: Global, characters: &str) -> Result<Text, AllocError> {
    let list: Vec<char> = characters.chars().collect(alloc)?;
    Ok(Text::from_vec(list))
}

/// Whether a list of characters becomes their text.
fn is_listed(alloc: Global, characters: &str) -> Result<bool, AllocError> {
    is(&listed(alloc, characters)?, characters)
}

/// Makes `hello` of `l`.
fn lengthen(alloc: Global, text: &mut Text) -> Result<(), AllocError> {
    text.append(&Text::from_str(alloc, "lo")?)?;
    text.prepend(&Text::from_str(alloc, "he")?)
}

/// Whether the two parts of the text have five characters together.
fn has_five(text: &Text) -> bool {
    let (front, back) = text.as_slices();
    front.len() <= 5 && back.len() == 5 - front.len()
}

/// Whether `l` grows to `hello`.
fn grows(alloc: Global) -> Result<bool, AllocError> {
    let mut hello = Text::from_str(alloc, "l")?;
    lengthen(alloc, &mut hello)?;
    Ok(is(&hello, "hello")? && has_five(&hello))
}

/// Whether the text has six characters, of which the first is `h`.
fn begins(text: &Text) -> bool {
    text.len() == 6 && text.get(0) == 'h'
}

/// Whether `ello` becomes `hello!` with a character before it and one after it, and a copy too.
fn encloses(alloc: Global) -> Result<bool, AllocError> {
    let mut text = Text::from_str(alloc, "ello")?;
    text.push_front('h')?;
    text.push('!')?;
    Ok(begins(&text) && is(&text.copy()?, "hello!")?)
}

#[test]
fn texts_grow(rt: HostRuntime) -> Result<(), Fail> {
    let alloc = rt.alloc();
    assert!(rt; grows(alloc)? && encloses(alloc)?);
    assert!(rt; is_listed(alloc, "ho")?);
    Ok(())
}

/// Whether `lo` is cut off the five characters, and how many are left.
fn cuts(hello: &mut Text) -> Result<bool, AllocError> {
    if hello.len() != 5 {
        return Ok(false);
    }
    let rest = hello.split_off(3)?;
    Ok((hello.len(), rest.len()) == (3, 2) && is(&rest, "lo")?)
}

/// Whether two characters are left without the first of three, and at last `e`.
fn narrows(text: &mut Text) -> Result<bool, AllocError> {
    if text.len() != 3 {
        return Ok(false);
    }
    text.drop_front(1);
    let len = text.len();
    text.truncate(1);
    Ok(len == 2 && is(text, "e")?)
}

#[test]
fn texts_are_cut(rt: HostRuntime) -> Result<(), Fail> {
    let mut hello = Text::from_str(rt.alloc(), "hello")?;
    assert!(rt; cuts(&mut hello)? && narrows(&mut hello)?);
    Ok(())
}
