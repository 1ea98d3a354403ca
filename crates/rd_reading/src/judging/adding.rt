//! Adding what a line says.
ghost use Rattle.std.specs.Prelude.{◌≡◌, ◌<◌, ◌-◌, ◌^◌, ◌++◌, ◌∷◌, [], All, IfErr, OnOk, length};
ghost use Rattle.rd_ecl.specs.Specified.{IsWhole};
ghost use Rattle.rd_grammar.specs.Grammar.{parsed_tree};
ghost use Rattle.rd_lines.specs.declared.forms.Stage.TheVariants.{Defaulted, Methods};
ghost use Rattle.rd_lines.specs.declared.forms.Version.{Version};
ghost use Rattle.rd_lines.specs.Lines.{HasFewWords, IsCommuteLine, IsDefaultLine, IsDefineLine, IsMethodLine, RightLine, commute as commute_said, define as define_said, said_of, words_of};
ghost use Rattle.rd_open_kind.specs.Opened.{filled, with_default, with_method_in};
ghost use Rattle.rd_pairs.specs.Causes.{HasNone, IsSpecLineRefused};
ghost use Rattle.rd_pairs.specs.PairCauses.{DefinitionHas, PairHas};
ghost use Rattle.rd_reading.specs.Adding.{FormAdds, with_kind, with_open};
ghost use Rattle.rd_reading.specs.Causes.{DefaultHas, FormHas, KindHas, MethodHas};
ghost use Rattle.rd_reading.specs.Known.{kind_in, open_kinds, open_method_names, opened_in, stage_of};
ghost use Rattle.rd_tokens.specs.Tokens.{IsTokenOf, LiesIn};

use crate::judging::kinds::judge_kind;
use crate::judging::methods::judge_method;
use crate::{Block, Fault, Known, SpecCause, SpecLineRefused};
use rd_base::{Name, NoMemory};
use rd_ecl::{Names, Spec};
use rd_grammar::Parsed;
use rd_lines::{Form, Stage, Version};
use rd_open_kind::OpenKind;
use rd_pairs::{judge_definition, judge_pair, place_at};
use rd_tokens::Token;
use std::alloc::Global;

// Closes the kind that is open, which has each of its pairs once its default is given. A refused call may leave anything.
pub(crate) fn close(closed: &mut Spec, block: Option<Block>) -> Result<(), NoMemory>
    requires { IsWhole (filled (opened_in block)) }
    ensures { OnOk result (closed.new ≡ closed.old ++ open_kinds block) }
{
    let Some(block) = block else {
        return Ok(());
    };
    match closed.push(block.opened.finish()) {
        Ok(()) => Ok(()),
        Err(_) => Err(NoMemory),
    }
}

// Closes the kind that is open, which has each of its pairs once its default is given, and opens one of this name. A refused call may leave anything.
fn open(alloc: Global, known: &mut Known, name: Name) -> Result<(), NoMemory>
    requires { IsWhole (filled (opened_in known.old.block)) }
    ensures { OnOk result (known.new ≡ with_kind known.old name) }
{
    close(&mut known.closed, known.block.take())?;
    known.block = Some(Block {
        opened: OpenKind::new(alloc, name)?,
        stage: Stage::Methods,
    });
    Ok(())
}

// Takes the line of a kind. A refused line may leave anything.
fn add_kind(
    alloc: Global,
    taken: &[Name],
    known: &mut Known,
    line: &[u8],
    tokens: &[Token],
    name: Name,
) -> Result<(), SpecLineRefused>
    requires { length line.now < 2 ^ 32 - 1 }
    ensures clean { OnOk result
        (HasNone (KindHas taken.now known.old line.now tokens.now name)) }
    ensures adds { OnOk result (known.new ≡ with_kind known.old name) }
    ensures refused { IfErr result
        (IsSpecLineRefused (KindHas taken.now known.old line.now tokens.now name)) }
{
    if let Some(fault) = judge_kind(taken, known, line, tokens, &name) {
        return Err(SpecLineRefused::Fault(fault));
    }
    open(alloc, known, name)?;
    Ok(())
}

// Takes the line of a method. A refused line may leave anything.
fn add_method(
    alloc: Global,
    known: &mut Known,
    line: &[u8],
    tokens: &[Token],
    name: Name,
    arguments: Names,
    value: Name,
) -> Result<(), SpecLineRefused>
    requires short { length line.now < 2 ^ 32 - 1 }
    requires count { length tokens.now < 2 ^ 32 - 1 }
    requires right { IsMethodLine (stage_of known.old)
        (words_of line.now tokens.now) name arguments value }
    ensures clean { OnOk result
        (HasNone (MethodHas (kind_in known.old.block) line.now tokens.now name arguments value)) }
    ensures adds { OnOk result (known.new ≡ with_open known.old
        (with_method_in (opened_in known.old.block) (record { name = name; variables = arguments ++ value ∷ [] })) Methods) }
    ensures refused { IfErr result
        (IsSpecLineRefused (MethodHas (kind_in known.old.block) line.now tokens.now name arguments value)) }
{
    let Some(mut block) = known.block.take() else {
        unreachable!();
    };
    if let Some(fault) = judge_method(
        alloc,
        block.opened.draft(),
        line,
        tokens,
        &name,
        arguments.items(),
        &value,
    )? {
        return Err(SpecLineRefused::Fault(fault));
    }
    let mut variables = arguments;
    variables.push(value)?;
    block.opened.method(alloc, name, variables)?;
    known.block = Some(block);
    Ok(())
}

// Takes the line of a pair. A refused line may leave anything.
fn add_pair(
    alloc: Global,
    version: Version,
    known: &mut Known,
    line: &[u8],
    tokens: &[Token],
    names: (&Name, &Name),
    parsed: &Parsed,
) -> Result<(), SpecLineRefused>
    requires within { All (LiesIn line.now) tokens.now }
    requires sorts { All (IsTokenOf line.now) tokens.now }
    requires short { length line.now < 2 ^ 32 - 1 }
    requires few { HasFewWords version (words_of line.now tokens.now) }
    requires right { IsCommuteLine version (stage_of known.old) (open_method_names known.old)
        (words_of line.now tokens.now) names.0.now names.1.now (parsed_tree parsed.now) }

    // the line is clean and adds what it says, or it is refused
    ensures clean { OnOk result
        (HasNone (PairHas version (opened_in known.old.block) line.now tokens.now
        names.entry.0.now names.entry.1.now (parsed_tree parsed.now))) }
    ensures adds { OnOk result
        (FormAdds version known.old line.now tokens.now
        (commute_said names.entry.0.now names.entry.1.now (parsed_tree parsed.now)) known.new) }
    ensures refused { IfErr result
        (IsSpecLineRefused (PairHas version (opened_in known.old.block) line.now tokens.now
        names.entry.0.now names.entry.1.now (parsed_tree parsed.now))) }
{
    let Some(mut block) = known.block.take() else {
        unreachable!();
    };
    let pair = judge_pair(alloc, version, &block.opened, line, tokens, names, parsed)?;
    block.opened.pair(pair.first, pair.second, pair.formula)?;
    block.stage = Stage::Pairs;
    known.block = Some(block);
    Ok(())
}

// Takes the line of a definition of a method, whose name comes first. A refused line may leave anything.
fn add_definition(
    alloc: Global,
    known: &mut Known,
    line: &[u8],
    tokens: &[Token],
    owner: &Name,
    name: Name,
    parsed: &Parsed,
) -> Result<(), SpecLineRefused>
    requires within { All (LiesIn line.now) tokens.now }
    requires sorts { All (IsTokenOf line.now) tokens.now }
    requires short { length line.now < 2 ^ 32 - 1 }
    requires right { (version : Version) × HasFewWords version (words_of line.now tokens.now)
        × IsDefineLine version (stage_of known.old)
        (words_of line.now tokens.now) owner.now name (parsed_tree parsed.now) }

    // the line is clean and adds what it says, or it is refused
    ensures clean { OnOk result
        (HasNone (DefinitionHas (opened_in known.old.block) line.now tokens.now
        owner.now name (parsed_tree parsed.now))) }
    ensures adds { OnOk result ((version : Version) →
        FormAdds version known.old line.now tokens.now
        (define_said owner.now name (parsed_tree parsed.now)) known.new) }
    ensures refused { IfErr result
        (IsSpecLineRefused (DefinitionHas (opened_in known.old.block) line.now tokens.now
        owner.now name (parsed_tree parsed.now))) }
{
    let Some(mut block) = known.block.take() else {
        unreachable!();
    };
    let defined = judge_definition(alloc, &block.opened, line, tokens, (owner, &name), parsed)?;
    block.opened.define(defined.method, name, defined.formula)?;
    block.stage = Stage::Definitions;
    known.block = Some(block);
    Ok(())
}

// Takes the line of a default. A refused line may leave anything.
fn add_default(
    known: &mut Known,
    line: &[u8],
    tokens: &[Token],
    value: bool,
) -> Result<(), SpecLineRefused>
    requires short { length line.now < 2 ^ 32 - 1 }
    requires right { (version : Version)
        × IsDefaultLine version (stage_of known.old) (words_of line.now tokens.now) value }
    ensures clean { OnOk result (HasNone (DefaultHas known.old line.now tokens.now)) }
    ensures adds { OnOk result
        (known.new ≡ with_open known.old (with_default (opened_in known.old.block) value) Defaulted) }
    ensures refused { IfErr result (IsSpecLineRefused (DefaultHas known.old line.now tokens.now)) }
{
    let Some(mut block) = known.block.take() else {
        unreachable!();
    };
    if block.stage == Stage::Defaulted {
        return Err(SpecLineRefused::Fault(Fault {
            place: place_at(line, tokens, 0),
            cause: SpecCause::Duplicate,
        }));
    }
    block.opened.set_default(value);
    block.stage = Stage::Defaulted;
    known.block = Some(block);
    Ok(())
}

// Takes what a right line of this version says. A refused line may leave anything.
pub(crate) fn add_form(
    alloc: Global,
    version: Version,
    taken: &[Name],
    known: &mut Known,
    line: &[u8],
    tokens: &[Token],
    form: Form,
) -> Result<(), SpecLineRefused>
    requires within { All (LiesIn line.now) tokens.now }
    requires sorts { All (IsTokenOf line.now) tokens.now }
    requires short { length line.now < 2 ^ 32 - 1 }
    requires count { length tokens.now < 2 ^ 32 - 1 }
    requires few { HasFewWords version (words_of line.now tokens.now) }
    requires right { RightLine version (stage_of known.old) (open_method_names known.old)
        (words_of line.now tokens.now) (said_of form) }

    // the line is clean and adds what it says, or it is refused
    ensures clean { OnOk result
        (HasNone (FormHas taken.now version known.old line.now tokens.now (said_of form))) }
    ensures adds { OnOk result
        (FormAdds version known.old line.now tokens.now (said_of form) known.new) }
    ensures refused { IfErr result
        (IsSpecLineRefused (FormHas taken.now version known.old line.now tokens.now (said_of form))) }
{
    match form {
        Form::Kind(name) => add_kind(alloc, taken, known, line, tokens, name),
        Form::Method {
            name,
            arguments,
            result,
        } => add_method(alloc, known, line, tokens, name, arguments, result),
        Form::Commute {
            first,
            second,
            formula,
        } => add_pair(
            alloc,
            version,
            known,
            line,
            tokens,
            (&first, &second),
            &formula,
        ),
        Form::Define {
            method,
            name,
            formula,
        } => add_definition(alloc, known, line, tokens, &method, name, &formula),
        Form::Default(value) => add_default(known, line, tokens, value),
    }
}
