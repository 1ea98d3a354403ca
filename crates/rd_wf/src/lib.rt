//! The roster of the accepted lines of a trace, which says of the next line whether it may follow.
#![tactic(auto)]

mod roster;

pub use rd_rules::{
    Accepted, BytesRefused, TraceCause, WfCause, WfRefused, law_of_events, law_of_following,
};
pub use roster::{
    AcquireLine, Anywhere, CallLine, CallNumbers, Finder, ForkLine, JoinLine, Judged, Keyword,
    KnownMethod, Near, ObjectLine, ReleaseLine, Roster, ShareLine, ThreadLine, UnshareLine,
};
