//! Points and witnesses whose parts are lent.
ghost use Rattle.std.specs.Prelude.{◌≡◌, IfOk};
ghost use Rattle.rd_store.specs.Lent.{lent_point, lent_witness};

use crate::Witness;
use indexmap::Equivalent;
use rd_base::{NoMemory, Value};
use rd_clock::StampRef;
use rd_event::Call;
use rd_points::{Point, hash_point};
use std::alloc::Global;
use std::hash::{Hash, Hasher};

/// A point whose value is lent, so that a store is asked for it without a copy of the value.
#[derive(Clone, Copy, PartialEq, Eq)]
pub struct PointRef<'a> {
    pub object: u32,
    pub class: u32,
    pub value: Option<&'a Value>,
}

impl<'a> PointRef<'a> {
    /// The point, lent.
    pub fn new(point: &'a Point) -> PointRef<'a>
        ensures { lent_point result ≡ point.now }
    {
        PointRef {
            object: point.object,
            class: point.class,
            value: point.value.as_ref(),
        }
    }

    /// The point with a copy of the value. It takes memory only where the value does.
    pub fn copy(self, alloc: Global) -> Result<Point, NoMemory>
        ensures { IfOk result (λ point. point ≡ lent_point self.entry) }
    {
        let value = match self.value {
            Some(value) => Some(value.copy(alloc)?),
            None => None,
        };
        Ok(Point {
            object: self.object,
            class: self.class,
            value,
        })
    }
}

impl<'a> Hash for PointRef<'a> {
    ghost use Rattle.std.specs.Option.{option_map};
    ghost use Rattle.rd_points.specs.PointLists.{point_input};
    ghost use Rattle.rd_store.specs.laws.LentLaws.{refs_hashed};

    ghost hash_input = { λ q. point_input q.object q.class (option_map (λ value. value.now) q.value) };

    ghost respects_eq = { refs_hashed };

    fn hash<H: Hasher>(&self, state: &mut H) {
        hash_point(self.object, self.class, self.value, state)
    }
}

/// What is kept of a call, with the call and its clock lent.
#[derive(Clone, Copy)]
pub struct WitnessRef<'a> {
    pub line: u64,
    pub place: u32,
    pub call: &'a Call,
    pub stamp: StampRef<'a>,
}

impl<'a> WitnessRef<'a> {
    /// The witness with copies of the call and the clock.
    pub fn copy(self, alloc: Global) -> Result<Witness, NoMemory>
        ensures { IfOk result (λ seen. seen ≡ lent_witness self.entry) }
    {
        let call = self.call.copy(alloc)?;
        Ok(Witness {
            line: self.line,
            place: self.place,
            call,
            stamp: self.stamp.copy(alloc)?,
        })
    }
}

impl<'a> Equivalent<Point> for PointRef<'a> {
    ghost use Rattle.rd_store.specs.Lent.{lent_point};
    ghost use Rattle.rd_store.specs.laws.LentLaws.{hashed, equal};

    ghost equivalent = { λ q. ⟦<Point as PartialEq>⟧.eq (lent_point q) };

    ghost respects_hash = { hashed };

    ghost respects_eq = { equal };

    fn equivalent(&self, key: &Point) -> bool {
        *self == PointRef::new(key)
    }
}
