//! Access points by themselves.
ghost use Rattle.std.specs.Prelude.{◌≡◌, ◌++◌, ◌∷◌, [], List, IfOk, OnOk, OnErr, fold, option_map};
ghost use Rattle.rd_points.specs.PointLists.{point_input};

use rd_base::{NoMemory, Value};
use std::alloc::Global;
use std::hash::{Hash, Hasher};
use std::marker::Model;

/// What a call touches: an object, a class of its kind, and the value that the class has a slot for, or none where the class is plain.
#[derive(Drop, PartialEq, Eq)]
pub struct Point {
    pub object: u32,
    pub class: u32,
    pub value: Option<Value>,
}

impl Point {
    /// An equal point. It takes memory only where its value does.
    pub fn copy(&self, alloc: Global) -> Result<Point, NoMemory>
        ensures { IfOk result (λ point. point ≡ self.now) }
    {
        let value = match &self.value {
            Some(value) => Some(value.copy(alloc)?),
            None => None,
        };
        Ok(Point {
            object: self.object,
            class: self.class,
            value,
        })
    }
}

/// Hashes a point by its parts: its object and class as one number, then its value if that is an integer or a text.
pub fn hash_point<H: Hasher>(object: u32, class: u32, value: Option<&Value>, state: &mut H)
    ensures { state.new ≡ fold H.write state.old
        (point_input object class (option_map (λ value. value.now) value.entry)) }
{
    state.write_u64(u64::from(object) * 4294967296 + u64::from(class));
    match value {
        Some(Value::Int(number)) => state.write_i64(*number),
        Some(Value::Text(text)) => text.hash(state),
        _ => {}
    }
}

impl Hash for Point {
    ghost use Rattle.rd_points.specs.PointLists.{point_input};
    ghost use Rattle.rd_points.specs.laws.PointLaws.{hashed_alike};

    ghost hash_input = { λ point. point_input point.object point.class point.value };

    ghost respects_eq = { hashed_alike };

    fn hash<H: Hasher>(&self, state: &mut H) {
        hash_point(self.object, self.class, self.value.as_ref(), state)
    }
}

/// A list of points. Contracts see it as the list.
#[derive(Drop)]
pub struct Points {
    points: Vec<Point>,
}

impl Model for Points {
    ghost use Rattle.std.specs.Prelude.{List};
    ghost use Rattle.rd_points.specs.declared.points.Point.{Point as PointOf};

    ghost Value = { List PointOf };

    ghost view = { λ p. p.points.items };
}

impl Points {
    /// A list without a point. It takes no memory.
    pub fn new(alloc: Global) -> Points
        ensures { result ≡ [] }
    {
        Points {
            points: Vec::new(alloc),
        }
    }

    /// Puts a point last. After want of memory all is as before.
    pub fn push(&mut self, point: Point) -> Result<(), NoMemory>
        ensures pushed { OnOk result (self.new ≡ self.old ++ point ∷ []) }
        ensures err { OnErr result (self.new ≡ self.old) }
    {
        self.points.push(point)?;
        Ok(())
    }

    /// The points, in their order. It takes no memory.
    pub fn items(&self) -> &[Point]
        ensures { result.now ≡ self.now }
    {
        self.points.as_slice()
    }

    /// The points, taken out. It takes no memory.
    pub fn into_items(self) -> Vec<Point>
        ensures { result.items ≡ self }
    {
        self.points
    }
}
