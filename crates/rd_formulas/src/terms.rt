//! What terms and relations mean.
ghost use Rattle.std.specs.Prelude.{◌≡◌, Some, IfOk, IsSome};
ghost use Rattle.rd_ecl.specs.Formulas.{tree_of};
ghost use Rattle.rd_formulas.specs.declared.terms.Meant.TheVariants.{Slot};
ghost use Rattle.rd_formulas.specs.Meaning.{cross_relation, relation_of_terms, sided_relation};
ghost use Rattle.rd_formulas.specs.Scope.{IsScope, IsTermAt, IsUnknown, MeansAt};

use crate::scope::Scope;
use rd_base::{NoMemory, Value};
use rd_ecl::{Formula, Rel, Side, Term};
use rd_grammar::Sign;
use rd_tokens::{Said, read_term};
use std::alloc::Global;

/// What a term stands for.
#[derive(Drop)]
pub enum Meant {
    /// a slot of the call on a side
    Slot { side: Side, slot: u8 },
    Value(Value),
}

/// What a term means. Only a text takes memory.
pub fn meaning(alloc: Global, scope: &Scope, number: u32) -> Result<Meant, NoMemory>
    requires { IsScope scope.now × IsTermAt scope.now number × (¬ (IsUnknown scope.now number)) }
    ensures { IfOk result (MeansAt scope.now number) }
{
    match read_term(alloc, scope.dialect, scope.word(number))? {
        Some(Said::Variable { side, name }) => Ok(Meant::Slot {
            side,
            slot: scope.slot(side, name.items()).unwrap(),
        }),
        Some(Said::Value(value)) => Ok(Meant::Value(value)),
        None => unreachable!(),
    }
}

// A relation on one side.
fn sided(
    alloc: Global,
    sign: Sign,
    side: Side,
    left: Term,
    right: Term,
) -> Result<Formula, NoMemory>
    ensures { IfOk result (λ formula. tree_of formula ≡ sided_relation sign side left right) }
{
    let atom = |rel| Formula::Atom {
        side,
        rel,
        left,
        right,
    };
    match sign {
        Sign::Equal => Ok(atom(Rel::Eq)),
        Sign::Different => Ok(Formula::Not(Box::new(alloc, atom(Rel::Eq))?)),
        Sign::Less => Ok(atom(Rel::Lt)),
        Sign::AtMost => Ok(atom(Rel::Le)),
    }
}

// A relation of a slot of side 1 and a slot of side 2.
fn across(sign: Sign, flipped: bool, first: u8, second: u8) -> Formula
    ensures { tree_of result ≡ cross_relation sign flipped first second }
{
    let rel = match sign {
        Sign::Different => return Formula::Cross { first, second },
        Sign::Equal => Rel::Eq,
        Sign::Less => Rel::Lt,
        Sign::AtMost => Rel::Le,
    };
    Formula::Mixed {
        rel,
        flipped,
        first,
        second,
    }
}

// A relation of two slots.
fn of_slots(
    alloc: Global,
    sign: Sign,
    left: (Side, u8),
    right: (Side, u8),
) -> Result<Formula, NoMemory>
    ensures { IfOk result
        (λ formula. relation_of_terms sign (Slot left.0 left.1) (Slot right.0 right.1) ≡ Some
        (tree_of formula)) }
{
    match (left.0, right.0) {
        (Side::First, Side::Second) => Ok(across(sign, false, left.1, right.1)),
        (Side::Second, Side::First) => Ok(across(sign, true, right.1, left.1)),
        (side, _) => sided(alloc, sign, side, Term::Slot(left.1), Term::Slot(right.1)),
    }
}

/// The relation of two terms, of which one is a slot. Only a node below another takes memory.
pub fn related(alloc: Global, sign: Sign, left: Meant, right: Meant) -> Result<Formula, NoMemory>
    requires { IsSome (relation_of_terms sign left right) }
    ensures { IfOk result (λ formula. relation_of_terms sign left right ≡ Some (tree_of formula)) }
{
    match (left, right) {
        (
            Meant::Slot { side, slot },
            Meant::Slot {
                side: other,
                slot: other_slot,
            },
        ) => of_slots(alloc, sign, (side, slot), (other, other_slot)),
        (Meant::Slot { side, slot }, Meant::Value(value)) => {
            sided(alloc, sign, side, Term::Slot(slot), Term::Const(value))
        }
        (Meant::Value(value), Meant::Slot { side, slot }) => {
            sided(alloc, sign, side, Term::Const(value), Term::Slot(slot))
        }
        (Meant::Value(_), Meant::Value(_)) => unreachable!(),
    }
}
