//! How the names of a line are found.

use super::Roster;
use rd_base::Name;
use rd_tables::{
    FREE, FoundLock, FoundMethod, FoundObject, FoundThread, NEAR_LENGTH, NameBytes, near_bytes,
};

/// A way to find names. There is no answer where the bytes are no name's, or where this way doesn't find them.
pub trait Finder {
    ghost use Rattle.std.specs.Prelude.{◌≡◌, ◌<◌, Bool, true, false, IfNone, IfSome, IsSome};
    ghost use Rattle.rd_base.specs.Names.{IsName};
    ghost use Rattle.rd_wf.specs.Roster.{IsFoundLock, IsFoundObject, IsFoundThread, lock_count, thread_count};

    // Whether each name is found.
    ghost complete: { Bool };

    /// Whether each name is found.
    fn finds_all() -> bool
        ensures { result ≡ complete };

    /// What a look-up of the thread with this name finds. The guess may be its number.
    fn thread(roster: &Roster, guess: u32, name: &[u8]) -> Option<FoundThread>
        ensures found { IfSome result (IsFoundThread roster.now name.now) }
        ensures within { IfSome result
            (λ found. found.unknown ≡ false → found.number < thread_count roster.now) }
        ensures named { IsSome result → IsName name.now }
        ensures none { IfNone result (complete ≡ true → ¬ (IsName name.now)) };

    /// What a look-up of the lock with this name finds. The guess may be its number.
    fn lock(roster: &Roster, guess: u32, name: &[u8]) -> Option<FoundLock>
        ensures found { IfSome result (IsFoundLock roster.now name.now) }
        ensures within { IfSome result
            (λ found. found.unknown ≡ false → found.number < lock_count roster.now) }
        ensures new { IfSome result (λ found. found.unknown ≡ true →
            (found.number ≡ lock_count roster.now) × (found.lock.depth ≡ 0)) }
        ensures named { IsSome result → IsName name.now }
        ensures none { IfNone result (complete ≡ true → ¬ (IsName name.now)) };

    /// What a look-up of the object with this name finds. The guess may be its number.
    fn object(roster: &Roster, guess: u32, name: &[u8]) -> Option<FoundObject>
        ensures found { IfSome result (IsFoundObject roster.now name.now) }
        ensures named { IsSome result → IsName name.now }
        ensures none { IfNone result (complete ≡ true → ¬ (IsName name.now)) };

    /// Remembers a number that was found, as the guess for names that are looked for at this place.
    fn remember(table: &mut [u32; NEAR_LENGTH], place: usize, number: u32);
}

/// A name is compared with that of the guess.
pub struct Near;

impl Finder for Near {
    ghost use Rattle.std.specs.Prelude.{false};

    ghost complete = { false };

    #[inline(always)]
    fn finds_all() -> bool {
        false
    }

    #[inline(always)]
    fn thread(roster: &Roster, guess: u32, name: &[u8]) -> Option<FoundThread> {
        let (known, joined) = roster.threads.get_index(guess as usize)?;
        if known.items() != name {
            return None;
        }
        Some(FoundThread {
            number: guess,
            unknown: false,
            joined: *joined,
        })
    }

    #[inline(always)]
    fn lock(roster: &Roster, guess: u32, name: &[u8]) -> Option<FoundLock> {
        let (known, lock) = roster.locks.get_index(guess as usize)?;
        if known.items() != name {
            return None;
        }
        Some(FoundLock {
            number: guess,
            unknown: false,
            lock: *lock,
        })
    }

    #[inline(always)]
    fn object(roster: &Roster, guess: u32, name: &[u8]) -> Option<FoundObject> {
        // `len` is called for its clause that no two objects have one name.
        let _count = roster.objects.len();
        let (known, kind) = roster.objects.get_index(guess as usize)?;
        if known.items() != name {
            return None;
        }
        Some(FoundObject {
            number: guess,
            unknown: false,
            kind: *kind,
        })
    }

    // The number stands there already.
    #[inline(always)]
    fn remember(_table: &mut [u32; NEAR_LENGTH], _place: usize, _number: u32) {}
}

/// A name is compared in the same way, and else hashed.
pub struct Anywhere;

impl Finder for Anywhere {
    ghost use Rattle.std.specs.Prelude.{true};

    ghost complete = { true };

    #[inline(always)]
    fn finds_all() -> bool {
        true
    }

    #[inline(always)]
    fn thread(roster: &Roster, guess: u32, name: &[u8]) -> Option<FoundThread> {
        if let Some(found) = Near::thread(roster, guess, name) {
            return Some(found);
        }
        roster.look_up_thread(name)
    }

    #[inline(always)]
    fn lock(roster: &Roster, guess: u32, name: &[u8]) -> Option<FoundLock> {
        if let Some(found) = Near::lock(roster, guess, name) {
            return Some(found);
        }
        roster.look_up_lock(name)
    }

    #[inline(always)]
    fn object(roster: &Roster, guess: u32, name: &[u8]) -> Option<FoundObject> {
        if let Some(found) = Near::object(roster, guess, name) {
            return Some(found);
        }
        roster.look_up_object(name)
    }

    #[inline(always)]
    fn remember(table: &mut [u32; NEAR_LENGTH], place: usize, number: u32) {
        table[place % NEAR_LENGTH] = number;
    }
}

impl Roster {
    ghost use Rattle.std.specs.Prelude.{◌≡◌, ◌<◌, List, false, true, is_some, IfNone, IfSome, IsSome};
    ghost use Rattle.indexmap.specs.IndexMap.{get_by, index_of_by};
    ghost use Rattle.rd_base.specs.Names.{IsName};
    ghost use Rattle.rd_ecl.specs.Kinds.{Kind};
    ghost use Rattle.rd_event.specs.declared.items.Line.{Line as LineOf};
    ghost use Rattle.rd_rules.specs.MayFollow.{is_among, objects_of, same_name};
    ghost use Rattle.rd_wf.specs.Roster.{IsFoundLock, IsFoundMethod, IsFoundObject, IsFoundThread, RosterStandsFor, lock_count, thread_count};

    #[inline(never)]
    fn look_up_thread(&self, name: &[u8]) -> Option<FoundThread>
        ensures found { IfSome result (IsFoundThread self.now name.now) }
        ensures within { IfSome result
            (λ found. found.unknown ≡ false → found.number < thread_count self.now) }
        ensures named { IsSome result → IsName name.now }
        ensures none { IfNone result (¬ (IsName name.now)) }
    {
        match self.threads.get_full(NameBytes { bytes: name }) {
            Some((number, known, joined)) => {
                // `items` is called for its clause that it is a name
                let _name = known.items();
                Some(FoundThread {
                    number: number as u32,
                    unknown: false,
                    joined: *joined,
                })
            }
            None => {
                let Ok(_name) = Name::from_bytes(name) else {
                    return None;
                };
                Some(FoundThread {
                    number: self.threads.len() as u32,
                    unknown: true,
                    joined: false,
                })
            }
        }
    }

    #[inline(never)]
    fn look_up_lock(&self, name: &[u8]) -> Option<FoundLock>
        ensures found { IfSome result (IsFoundLock self.now name.now) }
        ensures within { IfSome result
            (λ found. found.unknown ≡ false → found.number < lock_count self.now) }
        ensures new { IfSome result (λ found. found.unknown ≡ true →
            (found.number ≡ lock_count self.now) × (found.lock.depth ≡ 0)) }
        ensures named { IsSome result → IsName name.now }
        ensures none { IfNone result (¬ (IsName name.now)) }
    {
        match self.locks.get_full(NameBytes { bytes: name }) {
            Some((number, known, lock)) => {
                let _name = known.items();
                Some(FoundLock {
                    number: number as u32,
                    unknown: false,
                    lock: *lock,
                })
            }
            None => {
                let Ok(_name) = Name::from_bytes(name) else {
                    return None;
                };
                Some(FoundLock {
                    number: self.locks.len() as u32,
                    unknown: true,
                    lock: FREE,
                })
            }
        }
    }

    #[inline(never)]
    fn look_up_object(&self, name: &[u8]) -> Option<FoundObject>
        ensures found { IfSome result (IsFoundObject self.now name.now) }
        ensures named { IsSome result → IsName name.now }
        ensures none { IfNone result (¬ (IsName name.now)) }
    {
        match self.objects.get_full(NameBytes { bytes: name }) {
            Some((number, known, kind)) => {
                let _name = known.items();
                Some(FoundObject {
                    number: number as u32,
                    unknown: false,
                    kind: *kind,
                })
            }
            None => {
                let Ok(_name) = Name::from_bytes(name) else {
                    return None;
                };
                Some(FoundObject {
                    number: self.objects.len() as u32,
                    unknown: true,
                    kind: self.kinds.len() as u32,
                })
            }
        }
    }

    /// What a look-up of the object with this name finds, where it was declared.
    #[inline(always)]
    pub fn known_object(&self, name: &[u8]) -> Option<FoundObject>
        ensures found { IfSome result (IsFoundObject self.now name.now) }
        ensures known { IfSome result (λ found. found.unknown ≡ false) }
        ensures named { IsSome result → IsName name.now }
        ensures none { IfNone result ((kinds : List Kind) (lines : List LineOf) →
            RosterStandsFor kinds self.now lines → is_among (objects_of lines) name.now ≡ false) }
    {
        let near = near_bytes(name) % NEAR_LENGTH;
        // no near one is unknown, which its finder doesn't say
        if let Some(found) = Near::object(self, self.near_objects[near], name)
            && !found.unknown
        {
            return Some(found);
        }
        self.hashed_object(name)
    }

    // The same by the hash of the name.
    #[inline(never)]
    fn hashed_object(&self, name: &[u8]) -> Option<FoundObject>
        ensures found { IfSome result (IsFoundObject self.now name.now) }
        ensures known { IfSome result (λ found. found.unknown ≡ false) }
        ensures named { IsSome result → IsName name.now }
        ensures none { IfNone result ((kinds : List Kind) (lines : List LineOf) →
            RosterStandsFor kinds self.now lines → is_among (objects_of lines) name.now ≡ false) }
    {
        match self.objects.get_full(NameBytes { bytes: name }) {
            Some((number, known, kind)) => {
                let _name = known.items();
                Some(FoundObject {
                    number: number as u32,
                    unknown: false,
                    kind: *kind,
                })
            }
            None => None,
        }
    }

    // The number of the kind with this name. That of the last object is tried first.
    #[inline(always)]
    pub(super) fn find_kind(&self, name: &[u8]) -> Option<u32>
        ensures index { result ≡ index_of_by (same_name name.now) self.now.kinds }
        ensures found { is_some result ≡ is_some (get_by (same_name name.now) self.now.kinds) }
        ensures named { IsSome result → IsName name.now }
    {
        // `len` is called for its clause that no two kinds have one name.
        let _count = self.kinds.len();
        if let Some((_object, last)) = self.objects.last()
            && let Some((known, _methods)) = self.kinds.get_index(*last as usize)
            && known.items() == name
        {
            return Some(*last);
        }
        self.hashed_kind(name)
    }

    // The same by the hash of the name.
    #[inline(never)]
    fn hashed_kind(&self, name: &[u8]) -> Option<u32>
        ensures index { result ≡ index_of_by (same_name name.now) self.now.kinds }
        ensures found { is_some result ≡ is_some (get_by (same_name name.now) self.now.kinds) }
        ensures named { IsSome result → IsName name.now }
    {
        match self.kinds.get_full(NameBytes { bytes: name }) {
            Some((number, known, _methods)) => {
                let _name = known.items();
                Some(number as u32)
            }
            None => None,
        }
    }

    /// What a look-up of the method of this kind with this name finds; nothing where the bytes are no name's.
    #[inline(always)]
    pub(super) fn find_method(&self, kind: u32, name: &[u8]) -> Option<FoundMethod>
        ensures found { IfSome result (IsFoundMethod self.now kind name.now) }
        ensures named { IsSome result → IsName name.now }
        ensures none { IfNone result (¬ (IsName name.now)) }
    {
        if let Some((_, methods)) = self.kinds.get_index(kind as usize) {
            let found = methods.find(name);
            if !found.unknown {
                return Some(found);
            }
        }
        self.unknown_method(kind, name)
    }

    // The same where the kind has no such method.
    #[inline(never)]
    fn unknown_method(&self, kind: u32, name: &[u8]) -> Option<FoundMethod>
        ensures found { IfSome result (IsFoundMethod self.now kind name.now) }
        ensures named { IsSome result → IsName name.now }
        ensures none { IfNone result (¬ (IsName name.now)) }
    {
        let Ok(_name) = Name::from_bytes(name) else {
            return None;
        };
        match self.kinds.get_index(kind as usize) {
            None => Some(FoundMethod {
                number: 0,
                unknown: true,
                slots: 0,
            }),
            Some((_, methods)) => Some(methods.find(name)),
        }
    }
}
