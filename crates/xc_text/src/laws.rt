//! That values of the types here are compared and cloned as they are.

ghost use Rattle.xc_text.specs.Equality.{DecidesEquality, IsEqualClone};

use crate::line_reader::Unread;
use crate::memory::Memory;
use crate::seed::{FoldingHasher, Seed};
use crate::sink::WriteFailed;
use crate::source::ReadFailed;
use crate::write::SinkFault;

/// Two values of any of these types are equal exactly if `==` says so.
pub fn equality()
    ensures seeds { DecidesEquality ⟦<Seed as PartialEq>⟧.eq }
    ensures failures { DecidesEquality ⟦<ReadFailed as PartialEq>⟧.eq }
    ensures unread { DecidesEquality ⟦<Unread as PartialEq>⟧.eq }
    ensures writes { DecidesEquality ⟦<WriteFailed as PartialEq>⟧.eq }
    ensures sinks { DecidesEquality ⟦<SinkFault as PartialEq>⟧.eq }
    ensures memory { DecidesEquality ⟦<Memory as PartialEq>⟧.eq }
{}

/// A clone of a value of any of these types is equal to it.
pub fn clones()
    ensures seeds { IsEqualClone ⟦<Seed as Clone>⟧.is_clone }
    ensures hashers { IsEqualClone ⟦<FoldingHasher as Clone>⟧.is_clone }
    ensures failures { IsEqualClone ⟦<ReadFailed as Clone>⟧.is_clone }
    ensures unread { IsEqualClone ⟦<Unread as Clone>⟧.is_clone }
    ensures memory { IsEqualClone ⟦<Memory as Clone>⟧.is_clone }
{}
