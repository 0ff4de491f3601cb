//! The tuples of `test_steps::told` in constants, which can't call functions.

/// A tuple between others.
macro_rules! at {
    ($pos:expr, $replica:expr, $seq:expr, $offset:expr) => {
        rls_ident::Tuple::At {
            pos: $pos,
            replica: $replica,
            seq: $seq,
            offset: $offset,
        }
    };
}

/// A tuple of member 0's first operation.
macro_rules! old {
    ($offset:expr) => {
        at!(test_steps::told::MIDDLE, 0, 1, $offset)
    };
}

pub(super) use at;
pub(super) use old;
