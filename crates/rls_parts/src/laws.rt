//! Laws of the rules, and of the replica that has given parts, for all values. Each call runs nothing and takes no memory.

ghost use Rattle.rls_parts.specs.PartsLaws.{RestoredSane, PartsBack, StandsAgain, PartsStand, SanePasses};
ghost use Rattle.rls_parts.specs.Rules.{BrokenOrPasses};

/// No rule is broken exactly where each of the eight passes.
pub fn rules()
    ensures rules { BrokenOrPasses }
{}

/// The replica that has parts which are given well, are in range and break no rule, keeps what holds of each replica.
pub fn restored_sane()
    ensures sane { RestoredSane }
{}

/// The replica that has parts which are given well and break no rule has exactly these parts.
pub fn parts_back()
    ensures back { PartsBack }
{}

/// If the parts of a history and of what waits break no rule, the replica that has them stands for both, as the one did that had the
/// parts.
pub fn stands_again()
    ensures again { StandsAgain }
    ensures stand { PartsStand }
{}

/// The parts of a sane replica, whose waiting operations may wait, break no rule.
pub fn sane_passes()
    ensures passes { SanePasses }
{}
