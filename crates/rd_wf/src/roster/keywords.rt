//! The lines of a trace by their bytes, each sort by its keyword.
ghost use Rattle.std.specs.Prelude.{◌≡◌, ◌≢◌, ◌++◌, List, ℕ, ⊤, codes, true, IfNone, IfSome};
ghost use Rattle.rd_ecl.specs.Kinds.{Kind};
ghost use Rattle.rd_event.specs.declared.items.Line.{Line as LineOf};
ghost use Rattle.rd_wf.specs.Roster.{BeginsWith, RosterStandsFor, TakesBytes};

use super::Roster;
use super::finding::{Anywhere, Finder};
use super::lines::Judged;
use rd_base::Limits;
use rd_rules::{Accepted, BytesRefused};
use rd_tables::{cut_at_space, cut_name};

/// A sort of lines. Each is a type of its own, so that a line pays for nothing that those of another sort hold.
pub trait Keyword {
    // The first byte of its lines.
    ghost first: { ℕ };

    /// Accepts the next line by its bytes, given without its line feed, if they say an item of this sort that may follow the accepted
    /// lines, and says what it is in numbers, as `Roster::accept` of the item. Else it tells why not, and nothing changes. How names are
    /// found is up to the finder: `BadLine` says something of the bytes only where each name is found, and where they begin as lines of
    /// this sort. Where memory runs out the roster stands for the same lines as before; it comes for a call, and for an item that may
    /// follow and takes memory.
    fn accept_bytes<F: Finder>(roster: &mut Roster, bytes: &[u8], limits: &Limits) -> Judged
        ensures { (kinds : List Kind) (lines : List LineOf) → RosterStandsFor kinds roster.old lines →
            TakesBytes ((F.complete ≡ true) × BeginsWith first bytes.now)
            kinds limits.now lines bytes.now roster.old roster.new result };
}

// What stands behind the text, if the bytes begin with it.
#[inline(always)]
fn behind<'a>(bytes: &'a [u8], text: &[u8]) -> Option<&'a [u8]>
    ensures some { IfSome result (λ rest. bytes.now ≡ text.now ++ rest.now) }
    ensures none { IfNone result ((rest : List ℕ) → bytes.now ≢ text.now ++ rest) }
{
    bytes.strip_prefix(text)
}

/// Calls.
pub struct CallLine;

impl Keyword for CallLine {
    ghost first = { 99 };

    #[inline(always)]
    fn accept_bytes<F: Finder>(roster: &mut Roster, bytes: &[u8], limits: &Limits) -> Judged {
        let Some(words) = behind(bytes, b"call ") else {
            return Err(BytesRefused::BadLine);
        };
        roster.call::<F>(words, limits)
    }
}

/// Acquisitions of a lock.
pub struct AcquireLine;

impl Keyword for AcquireLine {
    ghost first = { 97 };

    #[inline(always)]
    fn accept_bytes<F: Finder>(roster: &mut Roster, bytes: &[u8], limits: &Limits) -> Judged {
        let Some(names) = behind(bytes, b"acquire ") else {
            return Err(BytesRefused::BadLine);
        };
        let Some((thread, lock)) = cut_at_space(names) else {
            return Err(BytesRefused::BadLine);
        };
        roster.acquire::<F>(thread, lock, limits)
    }
}

/// Releases of a lock, and the header, which begins with the same byte.
pub struct ReleaseLine;

impl Keyword for ReleaseLine {
    ghost first = { 114 };

    #[inline(always)]
    fn accept_bytes<F: Finder>(roster: &mut Roster, bytes: &[u8], limits: &Limits) -> Judged {
        let Some(names) = behind(bytes, b"release ") else {
            if F::finds_all() {
                return roster.header_line(bytes, limits);
            }
            return Err(BytesRefused::BadLine);
        };
        let Some((thread, lock)) = cut_at_space(names) else {
            return Err(BytesRefused::BadLine);
        };
        roster.release::<F>(thread, lock, limits)
    }
}

/// Joins.
pub struct JoinLine;

impl Keyword for JoinLine {
    ghost first = { 106 };

    #[inline(always)]
    fn accept_bytes<F: Finder>(roster: &mut Roster, bytes: &[u8], limits: &Limits) -> Judged {
        let Some(names) = behind(bytes, b"join ") else {
            return Err(BytesRefused::BadLine);
        };
        let Some((thread, child)) = cut_at_space(names) else {
            return Err(BytesRefused::BadLine);
        };
        roster.join::<F>(thread, child, limits)
    }
}

/// Lines by which a thread shares a lock.
pub struct ShareLine;

impl Keyword for ShareLine {
    ghost first = { 115 };

    #[inline(always)]
    fn accept_bytes<F: Finder>(roster: &mut Roster, bytes: &[u8], limits: &Limits) -> Judged {
        if roster.version() != 2 {
            return Err(BytesRefused::BadLine);
        }
        let Some(names) = behind(bytes, b"share ") else {
            return Err(BytesRefused::BadLine);
        };
        let Some((thread, lock)) = cut_at_space(names) else {
            return Err(BytesRefused::BadLine);
        };
        roster.share::<F>(thread, lock, limits)
    }
}

/// Lines by which a thread gives its share of a lock back.
pub struct UnshareLine;

impl Keyword for UnshareLine {
    ghost first = { 117 };

    #[inline(always)]
    fn accept_bytes<F: Finder>(roster: &mut Roster, bytes: &[u8], limits: &Limits) -> Judged {
        if roster.version() != 2 {
            return Err(BytesRefused::BadLine);
        }
        let Some(names) = behind(bytes, b"unshare ") else {
            return Err(BytesRefused::BadLine);
        };
        let Some((thread, lock)) = cut_at_space(names) else {
            return Err(BytesRefused::BadLine);
        };
        roster.unshare::<F>(thread, lock, limits)
    }
}

/// Forks.
pub struct ForkLine;

impl Keyword for ForkLine {
    ghost first = { 102 };

    #[inline(always)]
    fn accept_bytes<F: Finder>(roster: &mut Roster, bytes: &[u8], limits: &Limits) -> Judged {
        let Some(names) = behind(bytes, b"fork ") else {
            return Err(BytesRefused::BadLine);
        };
        let Some((thread, child)) = cut_at_space(names) else {
            return Err(BytesRefused::BadLine);
        };
        roster.fork(thread, child, limits)
    }
}

/// Objects.
pub struct ObjectLine;

impl Keyword for ObjectLine {
    ghost first = { 111 };

    #[inline(always)]
    fn accept_bytes<F: Finder>(roster: &mut Roster, bytes: &[u8], limits: &Limits) -> Judged {
        let Some(names) = behind(bytes, b"object ") else {
            return Err(BytesRefused::BadLine);
        };
        let Some((name, kind)) = cut_name(names) else {
            return Err(BytesRefused::BadLine);
        };
        roster.object_by_bytes(name, kind, limits)
    }
}

/// Root threads.
pub struct ThreadLine;

impl Keyword for ThreadLine {
    ghost first = { 116 };

    #[inline(always)]
    fn accept_bytes<F: Finder>(roster: &mut Roster, bytes: &[u8], limits: &Limits) -> Judged {
        let Some(name) = behind(bytes, b"thread ") else {
            return Err(BytesRefused::BadLine);
        };
        roster.root(name, limits)
    }
}

// Accepts a line of this sort, each of whose names is found.
#[inline(never)]
fn accept_anywhere<K: Keyword>(roster: &mut Roster, bytes: &[u8], limits: &Limits) -> Judged
    ensures { (kinds : List Kind) (lines : List LineOf) → RosterStandsFor kinds roster.old lines →
        TakesBytes (BeginsWith K.first bytes.now) kinds limits.now lines bytes.now roster.old roster.new result }
{
    K::accept_bytes::<Anywhere>(roster, bytes, limits)
}

impl Roster {
    /// Accepts the next line by its bytes, given without its line feed, if they say an item that may follow the accepted lines, and says
    /// what it is in numbers, as `accept` of the item. Else it tells whether they say none, or the first rule that the item breaks, and
    /// nothing changes. Want of memory comes only for a call, and for an item that may follow and takes memory; the roster then stands for
    /// the same lines as before.
    pub fn accept_bytes(&mut self, bytes: &[u8], limits: &Limits) -> Judged
        ensures { (kinds : List Kind) (lines : List LineOf) → RosterStandsFor kinds self.old lines →
            TakesBytes ⊤ kinds limits.now lines bytes.now self.old self.new result }
    {
        let Some(first) = bytes.first() else {
            return Ok(Accepted::Nothing);
        };
        match *first {
            b'#' => Ok(Accepted::Nothing),
            b'c' => accept_anywhere::<CallLine>(self, bytes, limits),
            b'a' => accept_anywhere::<AcquireLine>(self, bytes, limits),
            b'r' => accept_anywhere::<ReleaseLine>(self, bytes, limits),
            b'j' => accept_anywhere::<JoinLine>(self, bytes, limits),
            b's' => accept_anywhere::<ShareLine>(self, bytes, limits),
            b'u' => accept_anywhere::<UnshareLine>(self, bytes, limits),
            b'f' => accept_anywhere::<ForkLine>(self, bytes, limits),
            b'o' => accept_anywhere::<ObjectLine>(self, bytes, limits),
            b't' => accept_anywhere::<ThreadLine>(self, bytes, limits),
            _ => Err(BytesRefused::BadLine),
        }
    }

    // Accepts the header with these bytes.
    #[inline(never)]
    fn header_line(&mut self, bytes: &[u8], limits: &Limits) -> Judged
        requires { (rest : List ℕ) → bytes.now ≢ codes "release " ++ rest }
        ensures { (kinds : List Kind) (lines : List LineOf) → RosterStandsFor kinds self.old lines →
            TakesBytes (BeginsWith 114 bytes.now) kinds limits.now lines bytes.now self.old self.new result }
    {
        let Some(version) = behind(bytes, b"rdtrace ") else {
            return Err(BytesRefused::BadLine);
        };
        if version == b"1".as_slice() {
            return self.header(1, limits);
        }
        if version == b"2".as_slice() {
            return self.header(2, limits);
        }
        Err(BytesRefused::BadLine)
    }
}
