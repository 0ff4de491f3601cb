//! Laws of operations and messages as bytes. Each call runs nothing and takes no memory; its contract states the fact.

ghost use Rattle.rls_codec.specs.CodecLaws.{OpsAreRead, ReadAreOps, OpsAreReadFrom, ReadFromAreOps, NoneIsPrefix};
ghost use Rattle.rls_codec.specs.CodecLaws.{MessagesAreRead, ReadAreMessages, SizesAreLengths, MessageSizesAreLengths};

/// What is spelled is read, whatever follows it, and what is read is spelled so.
pub fn operations()
    ensures spelled { OpsAreRead }
    ensures read { ReadAreOps }
{}

/// In a longer list of bytes an operation is read exactly where a spelled one begins, and it ends before the place that is answered.
pub fn places()
    ensures begins { OpsAreReadFrom }
    ensures read { ReadFromAreOps }
{}

/// No spelling of an operation stands before another's.
pub fn no_prefix()
    ensures no_prefix { NoneIsPrefix }
{}

/// A message is read exactly where the bytes are one, in the newest form or an older one.
pub fn messages()
    ensures spelled { MessagesAreRead }
    ensures read { ReadAreMessages }
{}

/// Operations and messages have as many bytes as their sizes say.
pub fn sizes()
    ensures operations { SizesAreLengths }
    ensures messages { MessageSizesAreLengths }
{}
