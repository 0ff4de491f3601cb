//! The jumps of nodes, by which the way up from an epoch takes a number of steps that is logarithmic in
//! its depth (skew-binary jump pointers: Myers).
//! Why: CHOICES.md, 160.

ghost use Rattle.std.specs.Prelude.{◌≡◌, ◌≤◌, ◌<◌, ◌^◌, ◌-◌, suc, length, List};
ghost use Rattle.rls_ident.specs.declared.epoch_name.EpochName.{EpochName};
ghost use Rattle.rls_epoch.specs.Jumps.{depth_in, target_in, reach, jump_over, AreLow, AreJumps};
ghost use Rattle.rls_epoch.specs.Seen.{AreLaid};

use crate::placed::Placed;

// How many renamings lie above the epoch of a node, and the number of an epoch further up on its way.
#[derive(Clone, Copy)]
pub(crate) struct Jump {
    pub(crate) depth: usize,
    pub(crate) to: usize,
}

// The depth of the epoch with a number.
pub(crate) fn depth_of(jumps: &[Jump], number: usize) -> usize
    requires within { number ≤ length jumps.now }
    ensures depth { result ≡ depth_in jumps.now number }
{
    if number == 0 {
        0
    } else {
        jumps[number - 1].depth
    }
}

// Where the jump from the epoch with a number leads. From the topmost one it leads nowhere else.
pub(crate) fn target_of(jumps: &[Jump], number: usize) -> usize
    requires within { number ≤ length jumps.now }
    ensures target { result ≡ target_in jumps.now number }
{
    if number == 0 { 0 } else { jumps[number - 1].to }
}

// How many renamings the jump from the epoch with a number goes over.
fn reach(jumps: &[Jump], number: usize) -> usize
    requires within { number ≤ length jumps.now }
    requires low { AreLow jumps.now }
    ensures reach { result ≡ reach jumps.now number }
{
    depth_of(jumps, number) - depth_of(jumps, target_of(jumps, number))
}

// The jump of a node whose parent has this number. Where the two jumps from the parent on reach as far
// as one another it goes over both, and else to the parent.
pub(crate) fn next_jump(jumps: &[Jump], up: usize) -> Jump
    requires within { up ≤ length jumps.now }
    requires room { length jumps.now < 2 ^ 64 - 1 }
    requires low { AreLow jumps.now }
    ensures depth { result.depth ≡ suc (depth_in jumps.now up) }
    ensures to { result.to ≡ jump_over jumps.now up }
{
    let near = target_of(jumps, up);
    let far = target_of(jumps, near);
    let even = reach(jumps, up) == reach(jumps, near);
    Jump {
        depth: depth_of(jumps, up) + 1,
        to: if even { far } else { up },
    }
}

// Puts the jumps of these nodes in the place of those that are there. It takes no memory.
pub(crate) fn renew_jumps(jumps: &mut Vec<Jump>, nodes: &[Placed])
    requires enough { length nodes.now ≤ length jumps.old.items }
    requires room { length nodes.now < 2 ^ 64 - 1 }
    requires laid { (top : EpochName) × AreLaid top nodes.now }
    ensures whole { length jumps.new.items ≡ length nodes.now }
    ensures jumps { (top : EpochName) → AreLaid top nodes.now → AreJumps top nodes.now jumps.new.items }
{
    jumps.truncate(nodes.len());
    for i in 0..nodes.len() {
        let jump = next_jump(&jumps[..i], nodes[i].up);
        jumps[i] = jump;
    }
}
