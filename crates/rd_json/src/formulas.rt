//! The formulas of races in a form, each made once.
ghost use Rattle.std.specs.Prelude.{◌≡◌, ◌≤◌, ◌<◌, [], length, IfOk, IfSome};
ghost use Rattle.rd_ecl.specs.Specified.{kind_at};
ghost use Rattle.rd_json.specs.Formulas.{formula_in};

use crate::forms::Form;
use crate::races::append_formula_string;
use rd_base::{Bytes, NoMemory};
use rd_ecl::{KindSpec, Spec};
use rd_report::formula_line;
use std::alloc::Global;
use std::marker::Model;

/// What a race tells in this form of the formula of two methods of a kind, or of one with itself, by their numbers: `first` is at most
/// `second`. As text its line, as JSON the string of the line's words.
pub fn formula_in(
    form: Form,
    alloc: Global,
    kind: &KindSpec,
    first: u8,
    second: u8,
) -> Result<Bytes, NoMemory>
    requires { (first ≤ second) × (second < length kind.now.methods) }
    ensures { IfOk result (λ text. text ≡ formula_in form kind.now first second) }
{
    let line = formula_line(alloc, kind, first, second)?;
    match form {
        Form::Text | Form::EndingOnly => Ok(line),
        Form::Json => {
            let mut text = Bytes::new(alloc);
            append_formula_string(&mut text, kind, first, second, line.items())?;
            Ok(text)
        }
    }
}

/// The formula of two methods of a kind, by their numbers.
#[derive(Drop)]
pub struct Kept {
    kind: u32,
    first: u8,
    second: u8,
    text: Bytes,
}

/// The formulas of a specification that were asked for, in a form. Contracts see it as the form and the kinds of the specification.
#[derive(Drop)]
pub struct Formulas<'a> {
    form: Form,
    spec: &'a Spec,
    kept: Vec<Kept>,
}

impl<'a> Model for Formulas<'a> {
    ghost use Rattle.std.specs.Prelude.{All};
    ghost use Rattle.std.specs.Coded.{codes};
    ghost use Rattle.rd_ecl.specs.Codes.{coded_tree};
    ghost use Rattle.rd_json.specs.Formulas.{FormulasOf, IsKept};

    ghost Value = { FormulasOf };

    ghost coded = { Prim.hlevel (codes, coded_tree) };

    ghost view = { λ f. record { form = f.form; kinds = f.spec.now } };

    ghost invariant = { λ f. All (IsKept f.form f.spec.now) f.kept.items };
}

impl<'a> Formulas<'a> {
    /// No formula.
    pub fn new(alloc: Global, form: Form, spec: &'a Spec) -> Formulas<'a>
        ensures { result ≡ record { form = form; kinds = spec.now } }
    {
        Formulas {
            form,
            spec,
            kept: Vec::new(alloc),
        }
    }

    /// The formula of these two methods of that kind, where it was kept.
    pub fn find(&self, kind: u32, first: u8, second: u8) -> Option<&[u8]>
        ensures { IfSome result
            (λ text. text.now ≡ formula_in self.now.form (kind_at self.now.kinds kind) first second) }
    {
        for kept in &self.kept {
            if kept.kind == kind && kept.first == first && kept.second == second {
                return Some(kept.text.items());
            }
        }
        None
    }

    // Keeps the formula of these two methods of that kind.
    fn keep(&mut self, kind: u32, first: u8, second: u8, text: Bytes) -> Result<(), NoMemory>
        requires { text ≡ formula_in self.old.form (kind_at self.old.kinds kind) first second }
        ensures { self.new ≡ self.old }
    {
        self.kept.push(Kept {
            kind,
            first,
            second,
            text,
        })?;
        Ok(())
    }

    /// Makes the formula of these two methods of that kind, and keeps one like it.
    pub fn make(
        &mut self,
        alloc: Global,
        kind: u32,
        first: u8,
        second: u8,
    ) -> Result<Bytes, NoMemory>
        requires kind { kind < length self.old.kinds }
        requires methods { (first ≤ second)
            × (second < length (kind_at self.old.kinds kind).methods) }
        ensures text { IfOk result
            (λ text. text ≡ formula_in self.old.form (kind_at self.old.kinds kind) first second) }
        ensures same { self.new ≡ self.old }
    {
        let made = formula_in(
            self.form,
            alloc,
            &self.spec.kinds()[kind as usize],
            first,
            second,
        )?;
        let mut kept = Bytes::new(alloc);
        kept.append(made.items())?;
        self.keep(kind, first, second, kept)?;
        Ok(made)
    }
}
