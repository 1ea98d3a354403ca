//! Objects that run calls one after another.
ghost use Rattle.std.specs.Prelude.{◌≡◌, ◌+◌, ◌<◌, ℕ, IfOk, IfErr, OnErr, length};
ghost use Rattle.rd_object.specs.declared.shapes.Shape.{Shape as ShapeOf};
ghost use Rattle.rd_object.specs.Machines.{IsSound, KeepsShapes, Machine, IsTaken};
ghost use Rattle.rd_object.specs.Machines.Step.{goes, refuses};

use crate::shapes::Shape;
use rd_base::{NoMemory, Value};
use std::alloc::{AllocError, AllocFailed, Global};
use thiserror::Error;

/// Why an object doesn't run a call.
#[derive(Clone, Copy, Debug, PartialEq, Eq, Error)]
pub enum ApplyRefused {
    /// the object's kind doesn't take the argument with this number, from 0
    #[error("argument {0} is not taken")]
    BadArgument(u8),
    /// memory ran out
    #[error("out of memory")]
    NoMemory,
}

impl From<NoMemory> for ApplyRefused {
    ghost use Rattle.std.specs.Prelude.{◌≡◌};
    ghost use Rattle.rd_object.specs.declared.objects.ApplyRefused.TheVariants.{NoMemory as MemoryRefused};

    ghost from_gives = { λ _ e. e ≡ MemoryRefused };

    fn from(_error: NoMemory) -> ApplyRefused {
        ApplyRefused::NoMemory
    }
}

impl From<AllocError> for ApplyRefused {
    ghost use Rattle.std.specs.Prelude.{◌≡◌};
    ghost use Rattle.rd_object.specs.declared.objects.ApplyRefused.TheVariants.{NoMemory as MemoryRefused};

    ghost from_gives = { λ _ e. e ≡ MemoryRefused };

    fn from(_error: AllocError) -> ApplyRefused {
        ApplyRefused::NoMemory
    }
}

impl<T: Drop> From<AllocFailed<T>> for ApplyRefused {
    ghost use Rattle.std.specs.Prelude.{◌≡◌};
    ghost use Rattle.rd_object.specs.declared.objects.ApplyRefused.TheVariants.{NoMemory as MemoryRefused};

    ghost from_gives = { λ _ e. e ≡ MemoryRefused };

    fn from(_error: AllocFailed<T>) -> ApplyRefused {
        ApplyRefused::NoMemory
    }
}

/// An object that runs calls one after another, as its kind's machine does. Its meaning is its shape.
pub trait RefObject: Sized {
    /// The machine of its kind.
    ghost machine: { Machine };

    /// What the object holds.
    ghost meaning: { Self → ShapeOf };

    /// A new object. It takes no memory.
    fn start(alloc: Global) -> Self
        ensures { meaning result ≡ machine.first };

    /// Runs a call of the method with this number, which has as many arguments, and gives its result. `BadArgument` comes exactly
    /// where the machine doesn't take an argument, or else want of memory. After an `Err` the object is as before.
    fn apply(&mut self, method: u8, args: &[Value]) -> Result<Value, ApplyRefused>
        requires { IsTaken machine method args.now }
        ensures goes { IfOk result
            (λ value. machine.step method args.now (meaning self.old) ≡ goes
            (meaning self.new) value) }
        ensures refuses { IfErr result
            (λ refused. (slot : ℕ) → refused ≡ ApplyRefused.BadArgument slot →
            machine.step method args.now (meaning self.old) ≡ refuses slot) }
        ensures err { OnErr result (meaning self.new ≡ meaning self.old) };

    /// What the object holds.
    fn shape(&self) -> Result<Shape, NoMemory>
        ensures { IfOk result (λ shape. shape ≡ meaning self.now) };

    /// Wherever two calls run one after the other with their results and commute by the formulas of the kind, running them in the
    /// other order gives the same results and the same shape (after Dimitrov, Raychev, Vechev and Koskinen 2014).
    ghost sound: { IsSound machine };

    /// What the machine leads to is what an object may hold.
    ghost keeps: { KeepsShapes machine };
}
