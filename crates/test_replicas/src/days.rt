//! A day's use: three members who write, rename and exchange.

use rls_model::{Edit, Event, Outcome};
use rls_ops::Text;
use rls_report::ids_json;
use rls_world::World;
use std::alloc::{AllocError, Global};
use std::test::Fail;
use test_steps::steps::Change;
use test_steps::worlds::{Happening, event_of, replica};

/// The edit that inserts a page of 2,000 characters, in one line.
fn page(alloc: Global) -> Result<Edit, AllocError> {
    let mut text = Text::new(alloc);
    for _ in 0..250 {
        text.append(&Text::from_str(alloc, "a line, ")?)?;
    }
    Ok(Edit::Insert { at: 0, text })
}

/// Whether an event happens, and nothing is refused by it.
fn goes_well(world: &mut World, event: &Event) -> bool {
    match world.step(event) {
        Ok(Outcome::Took(taken)) => taken.refused.len() == 0,
        Ok(_) => true,
        Err(_) => false,
    }
}

/// Whether all go well, one after another.
fn all_go_well(alloc: Global, world: &mut World, all: &[Happening]) -> Result<bool, Fail> {
    for happening in all {
        if !goes_well(world, &event_of(alloc, *happening)?) {
            return Ok(false);
        }
    }
    Ok(true)
}

/// A member's text after its listing.
fn shown(alloc: Global, world: &World, member: u32) -> Result<String, Fail> {
    let replica = replica(world, member)?;
    let (ids, text) = (ids_json(alloc, replica)?, replica.text()?.to_utf8()?);
    Ok(format!(in alloc; "{ids}{text}")?)
}

/// What the members do with the page.
const DAY: &[Happening] = &[
    Happening::Edit(0, Change::Rename),
    Happening::Send(0, 1),
    Happening::Send(0, 2),
    Happening::Deliver(0, 1),
    Happening::Deliver(1, 2),
    Happening::Edit(1, Change::Insert(1_000, "in the middle")),
    Happening::Edit(1, Change::Delete(10, 20)),
    Happening::Edit(1, Change::Rename),
    Happening::Edit(2, Change::Insert(1_000, "there too")),
    Happening::Edit(2, Change::Delete(15, 30)),
    Happening::Edit(2, Change::Rename),
    Happening::Edit(0, Change::Delete(0, 12)),
];

/// The messages of an exchange: each member makes one for each other one.
const MESSAGES: [(u32, u32); 6] = [(0, 1), (0, 2), (1, 0), (1, 2), (2, 0), (2, 1)];

/// Whether all messages of an exchange are made.
fn are_sent(world: &mut World) -> bool {
    for (from, to) in MESSAGES {
        if !goes_well(world, &Event::Send { from, to }) {
            return false;
        }
    }
    true
}

/// Whether they are all taken, the last first. The first one has this number.
fn are_delivered(world: &mut World, first: u64) -> bool {
    for (i, (_, to)) in MESSAGES.iter().enumerate().rev() {
        let message = first.saturating_add(i as u64);
        if !goes_well(world, &Event::Deliver { message, to: *to }) {
            return false;
        }
    }
    true
}

/// Whether all members drop what is stable.
fn drop_stable(world: &mut World) -> bool {
    for member in 0..3 {
        if !goes_well(world, &Event::Drop { member }) {
            return false;
        }
    }
    true
}

/// Whether an exchange goes well, after which all members drop what is stable.
fn exchange(world: &mut World, first: u64) -> bool {
    are_sent(world) && are_delivered(world, first) && drop_stable(world)
}

/// Whether member 0 inserts the page.
fn inserts_page(alloc: Global, world: &mut World) -> Result<bool, AllocError> {
    let edit = page(alloc)?;
    Ok(goes_well(world, &Event::Edit { member: 0, edit }))
}

/// Whether the whole day goes well.
fn day_goes_well(alloc: Global, world: &mut World) -> Result<bool, Fail> {
    let is_begun = inserts_page(alloc, world)?;
    let is_done = all_go_well(alloc, world, DAY)?;
    Ok(is_begun && is_done && exchange(world, 2) && exchange(world, 8))
}

/// Whether two members show the same.
fn show_the_same(alloc: Global, world: &World, one: u32, other: u32) -> Result<bool, Fail> {
    let expected = shown(alloc, world, one)?;
    Ok(shown(alloc, world, other)? == expected)
}

/// Whether all three members show the same.
fn all_show_the_same(alloc: Global, world: &World) -> Result<bool, Fail> {
    Ok(show_the_same(alloc, world, 0, 1)? && show_the_same(alloc, world, 0, 2)?)
}

/// How many operations, epochs and former identifiers a member keeps.
type Kept = (u64, u64, u64);

/// How much member 0 keeps.
fn kept(world: &World) -> Result<Kept, Fail> {
    let kept = replica(world, 0)?.kept();
    Ok((kept.operations, kept.epochs, kept.former))
}

/// Whether the day goes well and all show the same afterwards, and how much member 0 keeps then.
fn end_of_day(alloc: Global, world: &mut World) -> Result<(bool, bool, Kept), Fail> {
    let goes_well = day_goes_well(alloc, world)?;
    let is_same = all_show_the_same(alloc, world)?;
    Ok((goes_well, is_same, kept(world)?))
}

/// The same of a fresh world.
fn end_of_three(alloc: Global) -> Result<(bool, bool, Kept), Fail> {
    let mut world = World::new(alloc, 7, 3)?;
    end_of_day(alloc, &mut world)
}

#[test]
fn a_day_of_three(rt: HostRuntime) -> Result<(), Fail> {
    assert_eq!(rt; end_of_three(rt.alloc())?, (true, true, (0, 1, 0)));
    Ok(())
}

/// Whether the insertion of a sole member goes well, and how much it keeps then.
fn page_of_one(alloc: Global) -> Result<(bool, Kept), Fail> {
    let mut world = World::new(alloc, 7, 1)?;
    let goes_well = inserts_page(alloc, &mut world)?;
    Ok((goes_well, kept(&world)?))
}

#[test]
fn a_sole_member_keeps_no_operation(rt: HostRuntime) -> Result<(), Fail> {
    assert_eq!(rt; page_of_one(rt.alloc())?, (true, (0, 1, 0)));
    Ok(())
}
