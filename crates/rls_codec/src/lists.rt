//! Lists, put part after part.

ghost use Rattle.std.specs.Prelude.{◌≡◌, ◌++◌, ℕ, List, All, OnOk};
ghost use Rattle.std.specs.List.{flat_map};
ghost use Rattle.rls_codec.specs.Gives.{IsFrontOf};

use std::alloc::AllocError;

/// A part of a list.
pub(crate) trait Part {
    /// How it is spelled.
    ghost bytes: { Self → List ℕ };

    /// What is asked of one that is put.
    ghost IsShort: { Self → Type 0 };

    /// What is known of one that was put.
    ghost Fits: { Self → Type 0 };

    fn put(&self, out: &mut Vec<u8>) -> Result<(), AllocError>
        requires short { IsShort self.now }
        ensures ok { OnOk result (out.new.items ≡ out.old.items ++ bytes self.now) }
        ensures keeps { IsFrontOf out.old.items out.new.items }
        ensures fits { OnOk result (Fits self.now) };
}

/// These parts, without their number.
pub(crate) fn put_list<P: Part>(out: &mut Vec<u8>, parts: &[P]) -> Result<(), AllocError>
    requires short { All P.IsShort parts.now }
    ensures ok { OnOk result (out.new.items ≡ out.old.items ++ flat_map P.bytes parts.now) }
    ensures keeps { IsFrontOf out.old.items out.new.items }
    ensures fits { OnOk result (All P.Fits parts.now) }
{
    for part in parts {
        part.put(out)?;
    }
    Ok(())
}
