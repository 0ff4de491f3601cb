//! The trial: a long valid course of events that a number decides.

ghost use Rattle.std.specs.Prelude.{◌≡◌, ◌≢◌, ◌<◌, length, replicate, slice_get, None, Err, IfOk, OnOk};
ghost use Rattle.rls_model.specs.declared.event.Event.TheVariants as events;
ghost use Rattle.rls_model.specs.Worlds.{World as WorldOf, empty_world, happens};
ghost use Rattle.rls_world.specs.Seen.{StandsForWorld};
ghost use Rattle.rls_world.specs.Trial.{Course, after_events, deliveries, kind_events, kind_draws, total_of, sent_events, round, rounds, step, summary_of, trial};

use crate::draws::Draws;
use crate::world::World;
use rls_ident::Vector;
use rls_model::{Edit, Event, Outcome, StepError};
use rls_replica::NewError;
use std::alloc::{AllocError, Global};

/// What a trial comes to. The members are 0, 1 and 2.
#[derive(Clone, Copy, Debug, PartialEq, Eq)]
pub struct Summary {
    /// How many operations of each member were accepted by member 0.
    pub accepted: [u32; 3],
    /// How many characters each member's text has.
    pub totals: [u64; 3],
    /// How many maximal runs of identifiers each member's text has.
    pub runs: [u64; 3],
    /// How many epochs member 0 retains.
    pub epochs: u64,
    /// How many former identifiers the epochs that member 0 retains have, but for the topmost of them.
    pub former: u64,
}

/// The trial of a seed: this many steps of three members that edit, send, take and drop what is stable, and two rounds in which each
/// sends to each. It keeps every message that was sent.
pub fn trial(alloc: Global, seed: u32, steps: u32) -> Result<Summary, AllocError>
    ensures summary { IfOk result (λ summary. summary ≡ trial seed steps) }
{
    let mut world = three_members(alloc)?;
    let mut draws = Draws { state: seed };
    for done in 0..steps {
        make_step(alloc, &mut world, &mut draws)?;
    }
    make_rounds(&mut world)?;
    summarize(&world)
}

// The world of three members to whom nothing has happened.
fn three_members(alloc: Global) -> Result<World, AllocError>
    ensures stands { IfOk result (λ world. StandsForWorld world (empty_world 1 3)) }
    ensures three { IfOk result (λ world. length world.replicas ≡ 3) }
{
    match World::new(alloc, 1, 3) {
        Ok(world) => Ok(world),
        Err(NewError::OutOfMemory) => Err(AllocError),
        Err(NewError::Members { .. }) => unreachable!(),
        Err(NewError::Me { .. }) => unreachable!(),
    }
}

// Lets an event happen. An edit that is refused changes nothing.
fn happen(world: &mut World, event: &Event) -> Result<(), AllocError>
    ensures ok { OnOk result ((w : WorldOf) → StandsForWorld world.old w → StandsForWorld world.new (happens None w event.now)) }
    ensures members { OnOk result (length world.new.replicas ≡ length world.old.replicas) }
{
    made(world.step(event))
}

// Whether memory sufficed.
fn made(answer: Result<Outcome, StepError>) -> Result<(), AllocError>
    ensures ok { OnOk result (answer ≢ Err StepError.OutOfMemory) }
{
    match answer {
        Ok(_) => Ok(()),
        Err(StepError::OutOfMemory) => Err(AllocError),
        Err(StepError::Edit(_)) => Ok(()),
        Err(StepError::NoMember { .. }) => Ok(()),
        Err(StepError::NoMessage { .. }) => Ok(()),
    }
}

// A member and a kind of step are drawn, and it happens; then the member drops what is stable.
fn make_step(alloc: Global, world: &mut World, draws: &mut Draws) -> Result<(), AllocError>
    requires three { length world.old.replicas ≡ 3 }
    ensures ok { OnOk result ((c : Course) → c.drawn_by ≡ draws.old.state → StandsForWorld world.old c.world → (draws.new.state ≡ (step c).drawn_by) × StandsForWorld world.new (step c).world) }
    ensures three { OnOk result (length world.new.replicas ≡ 3) }
{
    let member = draws.draw(3) as u32;
    let kind = draws.draw(16);
    act(alloc, world, draws, member, kind)?;
    happen(world, &Event::Drop { member })
}

// What happens in a step of this kind at a member.
fn act(
    alloc: Global,
    world: &mut World,
    draws: &mut Draws,
    member: u32,
    kind: u64,
) -> Result<(), AllocError>
    requires three { length world.old.replicas ≡ 3 }
    requires member { member < 3 }
    ensures world { OnOk result ((w : WorldOf) → StandsForWorld world.old w → StandsForWorld world.new (after_events w (kind_events w member (total_of (slice_get w.states member)) kind draws.old.state))) }
    ensures draws { OnOk result ((w : WorldOf) → StandsForWorld world.old w → draws.new.state ≡ kind_draws (total_of (slice_get w.states member)) kind draws.old.state) }
    ensures three { OnOk result (length world.new.replicas ≡ 3) }
{
    let total = world.replica(member).total();
    if kind <= 8 {
        let edit = draws.insertion(alloc, total)?;
        return happen(world, &Event::Edit { member, edit });
    }
    if kind <= 11 {
        if total == 0 {
            return Ok(());
        }
        let edit = draws.deletion(total);
        return happen(world, &Event::Edit { member, edit });
    }
    if kind == 12 {
        if total == 0 {
            return Ok(());
        }
        return happen(
            world,
            &Event::Edit {
                member,
                edit: Edit::Rename,
            },
        );
    }
    let to = (member + 1 + draws.draw(2) as u32) % 3;
    exchange(world, member, to, deliveries(kind))
}

// How often a message is delivered in a step of this kind.
fn deliveries(kind: u64) -> u64
    ensures times { result ≡ deliveries kind }
{
    match kind {
        13 => 1,
        14 => 2,
        _ => 0,
    }
}

// A member makes a message for another one, which takes it so often.
fn exchange(world: &mut World, from: u32, to: u32, times: u64) -> Result<(), AllocError>
    ensures ok { OnOk result ((w : WorldOf) → StandsForWorld world.old w → StandsForWorld world.new (after_events w (sent_events w from to times))) }
    ensures members { OnOk result (length world.new.replicas ≡ length world.old.replicas) }
{
    let message = world.messages() as u64;
    happen(world, &Event::Send { from, to })?;
    deliver(world, message, to, times)
}

// A member takes a message so often.
fn deliver(world: &mut World, message: u64, to: u32, times: u64) -> Result<(), AllocError>
    ensures ok { OnOk result ((w : WorldOf) → StandsForWorld world.old w → StandsForWorld world.new (after_events w (replicate times (events.Deliver message to)))) }
    ensures members { OnOk result (length world.new.replicas ≡ length world.old.replicas) }
{
    for done in 0..times {
        happen(world, &Event::Deliver { message, to })?;
    }
    Ok(())
}

// Each member sends to each other one.
fn make_round(world: &mut World) -> Result<(), AllocError>
    ensures ok { OnOk result ((w : WorldOf) → StandsForWorld world.old w → StandsForWorld world.new (round w)) }
    ensures members { OnOk result (length world.new.replicas ≡ length world.old.replicas) }
{
    exchange(world, 0, 1, 1)?;
    exchange(world, 0, 2, 1)?;
    exchange(world, 1, 0, 1)?;
    exchange(world, 1, 2, 1)?;
    exchange(world, 2, 0, 1)?;
    exchange(world, 2, 1, 1)
}

// Two rounds, after which each member drops what is stable.
fn make_rounds(world: &mut World) -> Result<(), AllocError>
    ensures ok { OnOk result ((w : WorldOf) → StandsForWorld world.old w → StandsForWorld world.new (rounds w)) }
    ensures members { OnOk result (length world.new.replicas ≡ length world.old.replicas) }
{
    make_round(world)?;
    make_round(world)?;
    happen(world, &Event::Drop { member: 0 })?;
    happen(world, &Event::Drop { member: 1 })?;
    happen(world, &Event::Drop { member: 2 })
}

// What is told of the members.
fn summarize(world: &World) -> Result<Summary, AllocError>
    requires three { length world.now.replicas ≡ 3 }
    ensures summary { IfOk result (λ summary. (w : WorldOf) → StandsForWorld world.now w → summary ≡ summary_of w.states) }
{
    let first = world.replica(0).counts()?;
    let second = world.replica(1).counts()?;
    let third = world.replica(2).counts()?;
    Ok(Summary {
        accepted: accepted(world.replica(0).vector()),
        totals: [first.total, second.total, third.total],
        runs: [first.runs, second.runs, third.runs],
        epochs: first.epochs,
        former: first.former,
    })
}

// The counts of three members.
fn accepted(vector: &Vector) -> [u32; 3]
    requires three { length vector.now ≡ 3 }
    ensures counts { result ≡ vector.now }
{
    [vector.get(0), vector.get(1), vector.get(2)]
}
