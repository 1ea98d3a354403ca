//! Tables of access points: what a detector asks.
ghost use Rattle.std.specs.Prelude.{◌≡◌, ◌+◌, ◌*◌, ◌^◌, ◌<◌, ◌≤◌, All, length, [], ◌++◌, map, filter_map, slice_index_or, vec_len, Option, None, if◌then◌else◌};
ghost use Rattle.std.specs.Option.{option_map_or, option_to_list};
ghost use Rattle.rd_base.specs.declared.limits.TheConstants.{MOST_PREDICATES};
ghost use Rattle.rd_points.specs.Classes.{bits_of};
ghost use Rattle.rd_points.specs.Tables.{PointTable, class_count, conflicts_at, is_plain_class, predicates_of_method, renamed_touch, renamed_touches, touched, touches_at};

use crate::touches::Touch;
use arrayvec::ArrayVec;
use rd_base::Value;
use rd_ecl::{Predicate, Predicates, Valuation};
use std::marker::Model;

/// What a kind's methods touch, and which classes conflict. Contracts see it as a `PointTable`.
#[derive(Drop)]
pub struct Table {
    // those of each method
    predicates: Vec<Predicates>,
    // by method, then by valuation
    touches: Vec<Vec<ArrayVec<Touch, 8>>>,
    // both by class
    plain: Vec<bool>,
    conflicts: Vec<Vec<u32>>,
}

impl Model for Table {
    ghost use Rattle.std.specs.Prelude.{◌^◌, ◌<◌, ◌≤◌, All, length, map};
    ghost use Rattle.rd_base.specs.declared.limits.TheConstants.{MOST_PREDICATES};
    ghost use Rattle.rd_points.specs.Tables.{PointTable};

    ghost Value = { PointTable };

    ghost view = { λ t. record {
      predicates = t.predicates.items;
      touches = map (λ rows. map (λ row. row.items) rows.items) t.touches.items;
      plain = t.plain.items;
      conflicts = map (λ row. row.items) t.conflicts.items;
    } };

    ghost invariant = { λ t. All (λ ps. length ps ≤ MOST_PREDICATES) t.predicates.items
        × (length t.conflicts.items < 2 ^ 32) };
}

// The bit of a truth value.
fn bit(value: bool) -> u8
    ensures { result ≡ (if value then 1 else 0) }
{
    u8::from(value)
}

// The truth values of a method's predicates in a call with these slots.
fn valuation(predicates: &[Predicate], slots: &[Value]) -> Valuation
    requires { length predicates.now ≤ MOST_PREDICATES }
    ensures bits { result.bits ≡ bits_of predicates.now slots.now }
    ensures bound { result.bits < 2 ^ length predicates.now }
{
    let mut bits = 0;
    let mut place = predicates.len();
    while place > 0 {
        place -= 1;
        bits = bit(predicates[place].holds(slots)) + 2 * bits;
    }
    Valuation { bits }
}

// A touch by the new number of its class, if that has one.
fn renamed_touch(touch: Touch, names: &[Option<u32>]) -> Option<Touch>
    ensures { result ≡ renamed_touch (λ c. slice_index_or names.now c None) touch }
{
    match names.get(touch.class as usize) {
        Some(Some(class)) => Some(Touch {
            class: *class,
            slot: touch.slot,
        }),
        _ => None,
    }
}

// The same touches.
fn copied(row: &ArrayVec<Touch, 8>) -> ArrayVec<Touch, 8>
    ensures { result.items ≡ row.now.items }
{
    let mut copy = ArrayVec::new();
    copy.try_extend_from_slice(row.as_slice()).unwrap();
    copy
}

// Puts a touch last, if there is one.
fn put(row: &mut ArrayVec<Touch, 8>, touch: Option<Touch>)
    requires { length row.old.items < 8 }
    ensures { row.new.items ≡ row.old.items ++ option_to_list touch }
{
    if let Some(touch) = touch {
        row.push(touch);
    }
}

// The touches by the new numbers of their classes, without those whose class has none.
fn renamed_row(row: &ArrayVec<Touch, 8>, names: &[Option<u32>]) -> ArrayVec<Touch, 8>
    ensures { result.items
        ≡ filter_map (renamed_touch (λ c. slice_index_or names.now c None)) row.now.items }
{
    let mut renamed = ArrayVec::new();
    for touch in row.as_slice() {
        put(&mut renamed, renamed_touch(*touch, names));
    }
    renamed
}

// Renames the classes in the rows of a method.
fn rename_rows(rows: &mut Vec<ArrayVec<Touch, 8>>, names: &[Option<u32>])
    ensures { map (λ row. row.items) rows.new.items
        ≡ map (filter_map (renamed_touch (λ c. slice_index_or names.now c None)))
        (map (λ row. row.items) rows.old.items) }
{
    for at in 0..rows.len() {
        rows[at] = renamed_row(&rows[at], names);
    }
}

// Renames the classes in all rows.
fn rename_touches(touches: &mut Vec<Vec<ArrayVec<Touch, 8>>>, names: &[Option<u32>])
    ensures { map (λ rows. map (λ row. row.items) rows.items) touches.new.items
        ≡ renamed_touches (λ c. slice_index_or names.now c None)
        (map (λ rows. map (λ row. row.items) rows.items) touches.old.items) }
{
    for at in 0..touches.len() {
        rename_rows(&mut touches[at], names);
    }
}

impl Table {
    // The table of these parts.
    pub(crate) fn from_parts(
        predicates: Vec<Predicates>,
        touches: Vec<Vec<ArrayVec<Touch, 8>>>,
        plain: Vec<bool>,
        conflicts: Vec<Vec<u32>>,
    ) -> Table
        requires few { All (λ ps. length ps ≤ MOST_PREDICATES) predicates.items }
        requires count { vec_len conflicts < 2 ^ 32 }
        ensures { result ≡ record {
          predicates = predicates.items;
          touches = map (λ rows. map (λ row. row.items) rows.items) touches.items;
          plain = plain.items;
          conflicts = map (λ row. row.items) conflicts.items;
        } }
    {
        Table {
            predicates,
            touches,
            plain,
            conflicts,
        }
    }

    /// The predicates of the method with this number, at most 5; none where there is no such method. It
    /// takes no memory.
    pub fn predicates(&self, method: u8) -> &[Predicate]
        ensures value { result.now ≡ predicates_of_method self.now method }
        ensures few { length result.now ≤ MOST_PREDICATES }
    {
        match self.predicates.get(usize::from(method)) {
            Some(predicates) => predicates.items(),
            None => &[],
        }
    }

    // What a call of a method touches where its predicates have these truth values, if there are such a method and valuation.
    fn row_at(&self, method: u8, v: Valuation) -> Option<&ArrayVec<Touch, 8>>
        ensures { option_map_or (λ row. row.now.items) result []
            ≡ touches_at self.now method v.bits }
    {
        match self.touches.get(usize::from(method)) {
            Some(rows) => rows.get(usize::from(v.bits)),
            None => None,
        }
    }

    /// What a call of a method touches where its predicates have these truth values; nothing where there
    /// is no such method or valuation. It takes no memory.
    pub fn touches(&self, method: u8, v: Valuation) -> ArrayVec<Touch, 8>
        ensures { result.items ≡ touches_at self.now method v.bits }
    {
        match self.row_at(method, v) {
            Some(row) => copied(row),
            None => ArrayVec::new(),
        }
    }

    /// What a call of a method with these slots touches; nothing where there is no such method. It takes
    /// no memory.
    pub fn touched(&self, method: u8, slots: &[Value]) -> ArrayVec<Touch, 8>
        ensures { result.items ≡ touched self.now method slots.now }
    {
        self.touches(method, valuation(self.predicates(method), slots))
    }

    /// The same as `touched`, lent: at most 8 touches.
    pub fn row(&self, method: u8, slots: &[Value]) -> &[Touch]
        ensures value { result.now ≡ touched self.now method slots.now }
        ensures few { length result.now ≤ 8 }
    {
        match self.row_at(method, valuation(self.predicates(method), slots)) {
            Some(row) => row.as_slice(),
            None => &[],
        }
    }

    /// The classes that conflict with this one; none where there is no such class. It takes no
    /// memory.
    pub fn conflicts(&self, class: u32) -> &[u32]
        ensures { result.now ≡ conflicts_at self.now class }
    {
        match self.conflicts.get(class as usize) {
            Some(row) => row.as_slice(),
            None => &[],
        }
    }

    /// How many classes there are: their numbers are those below. It takes no memory.
    pub fn classes(&self) -> u32
        ensures { result ≡ class_count self.now }
    {
        self.conflicts.len() as u32
    }

    /// Is the class one without a value? Not where there is no such class. It takes no memory.
    pub fn plain(&self, class: u32) -> bool
        ensures { result ≡ is_plain_class self.now class }
    {
        match self.plain.get(class as usize) {
            Some(plain) => *plain,
            None => false,
        }
    }

    /// The table in which a class has the name that stands at its number, and in which touches of a
    /// class without a name are left out. The classes of the new table, fewer than 2^32, are given. It
    /// takes no memory.
    pub fn rename(
        mut self,
        names: &[Option<u32>],
        plain: Vec<bool>,
        conflicts: Vec<Vec<u32>>,
    ) -> Table
        requires { vec_len conflicts < 2 ^ 32 }
        ensures { result ≡ record {
          predicates = self.predicates;
          touches = renamed_touches (λ c. slice_index_or names.now c None) self.touches;
          plain = plain.items;
          conflicts = map (λ row. row.items) conflicts.items;
        } }
    {
        rename_touches(&mut self.touches, names);
        self.plain = plain;
        self.conflicts = conflicts;
        self
    }
}
