//! Why a line of a specification's text is refused.

use rd_base::{LimitName, Name};
use rd_ecl::Reason;

/// Why a line of a specification's text is refused.
#[derive(Debug, Drop, PartialEq, Eq)]
pub enum SpecCause {
    /// the first line that isn't skipped is neither `rdspec 1` nor `rdspec 2`, or there is none
    Header,
    /// the line has no right form, stands where it may not, or names two methods in the wrong order
    Syntax,
    /// the line of a pair or of a definition names no method of the kind
    UnknownMethod,
    /// a variable isn't one of its side's method, or a used name isn't a definition of it
    UnknownVariable,
    /// a relation has no variable
    NoVariable,
    /// the formula isn't in the fragment
    OutsideFragment(Reason),
    /// a kind, a method, a variable of a method, a pair, a defined name or a default is there already
    Duplicate,
    /// the kind before ends with this pair missing, by the names of its methods
    MissingPair(Name, Name),
    /// the kind's name is taken
    KindTaken,
    /// a count passes its limit
    Limit(LimitName, u32),
}

/// The first thing that is wrong with a line, and where.
#[derive(Debug, Drop, PartialEq, Eq)]
pub struct Fault {
    /// the number of the first byte in the line, from 1; 0 where the cause has no place
    pub place: u32,
    pub cause: SpecCause,
}
