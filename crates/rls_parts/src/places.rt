//! Where epochs stand in a list.

ghost use Rattle.std.specs.Prelude.{◌≡◌, position, IfOk};
ghost use Rattle.rls_ident.specs.EpochNames.{name_eq};
ghost use Rattle.rls_parts.specs.Places.{key_of};

use rls_ident::EpochName;
use std::alloc::{AllocError, Global};
use std::collections::BTreeMap;
use std::marker::Model;

/// The member and the number of the rename that opened an epoch.
#[derive(Clone, Copy, PartialEq, Eq, PartialOrd, Ord, Drop)]
pub(crate) struct Opened {
    replica: u32,
    seq: u32,
}

/// The names of epochs, with an index of the first place of each. It is made once for all look-ups among them.
#[derive(Drop)]
pub struct Places<'a> {
    names: &'a [EpochName],
    first: BTreeMap<Option<Opened>, u64>,
}

impl<'a> Model for Places<'a> {
    ghost use Rattle.std.specs.Prelude.{List};
    ghost use Rattle.rls_ident.specs.declared.epoch_name.EpochName.{EpochName};
    ghost use Rattle.rls_parts.specs.Places.{AreFirst};

    ghost Value = { List EpochName };

    ghost view = { λ p. p.names.now };

    ghost invariant = { λ p. AreFirst p.first.entries 0 p.names.now };
}

impl<'a> Places<'a> {
    /// The places of these names. It costs a logarithm of how many there are for each.
    pub fn of(alloc: Global, names: &'a [EpochName]) -> Result<Places<'a>, AllocError>
        ensures names { IfOk result (λ places. places ≡ names.now) }
    {
        let mut first = BTreeMap::new(alloc);
        let mut place = names.len();
        while 0 < place {
            place -= 1;
            first.insert(key_of(names[place]), place as u64)?;
        }
        Ok(Places { names, first })
    }

    /// The names.
    pub fn names(&self) -> &'a [EpochName]
        ensures names { result.now ≡ self.now }
    {
        self.names
    }

    /// The first place of an epoch, if it is there. It costs a logarithm of how many names there are.
    pub fn place(&self, name: EpochName) -> Option<u64>
        ensures place { result ≡ position (name_eq name) self.now }
    {
        self.first.get(&key_of(name)).copied()
    }
}

// Under what an epoch is looked up: no rename opened the first one.
fn key_of(name: EpochName) -> Option<Opened>
    ensures key { result ≡ key_of name }
{
    match name {
        EpochName::Origin => None,
        EpochName::Of { replica, seq } => Some(Opened { replica, seq }),
    }
}
