//! The reader: a machine that takes one mark after another, with a stack of what waits outside open parentheses.
ghost use Rattle.std.specs.Prelude.{◌≡◌, ◌≤◌, ℕ, reverse, length, IfOk, IfErr, option_map};
ghost use Rattle.rd_grammar.specs.Grammar.{ParsedTree, MarksSay, disj, is_term, parsed_tree, AreMarksRefused};
ghost use Rattle.rd_grammar.specs.Machine.{start, is_sign, step, from_want, from_lead, from_sided, from_signed, from_have, formula_at_end, whole_formula, behind_parenthesis, empty, nots_of, and_with, or_with, left_of, pending_of, stack_of, state_of};
ghost use Rattle.rd_grammar.specs.declared.parsed.MarksRefused.TheVariants.{Syntax};

use crate::marks::{Leaf, Mark, Sign, Symbol};
use crate::parsed::{MarksRefused, Parsed};
use rd_base::{MOST_TOKENS, NoMemory};
use std::alloc::Global;

// A formula that stands before an `and` or an `or`, and the number of that word.
#[derive(Drop)]
struct LeftPart {
    formula: Parsed,
    token: u32,
}

// What waits for an operand since the last open parenthesis.
#[derive(Drop)]
struct Pending {
    or: Option<LeftPart>,
    and: Option<LeftPart>,
    nots: Vec<u32>,
}

// A formula that ends where the reader is, unless an `and` follows, and what an `or` joins it to.
#[derive(Drop)]
struct RightPart {
    formula: Parsed,
    or: Option<LeftPart>,
}

// What has been read since the last operand, and what may come.
#[derive(Drop)]
enum Mode {
    // an operand is due
    Wanting(Pending),
    // a word that is a formula, or a term where a sign follows
    Lead {
        leaf: Leaf,
        token: u32,
        pending: Pending,
    },
    // a term, whose sign is due
    Sided {
        left: u32,
        pending: Pending,
    },
    // a term and a sign, whose second term is due
    Signed {
        left: u32,
        sign: Sign,
        token: u32,
        pending: Pending,
    },
    // a formula, which may end here
    Complete(RightPart),
}

// The reader: where it is, and what waits outside each open parenthesis, the innermost last.
#[derive(Drop)]
struct Reader {
    mode: Mode,
    stack: Vec<Pending>,
}

// The formula with these `not` before it, the last of them innermost.
fn negated(alloc: Global, formula: Parsed, nots: Vec<u32>) -> Result<Parsed, NoMemory>
    ensures { IfOk result (λ f. parsed_tree f ≡ nots_of (reverse nots.items) (parsed_tree formula)) }
{
    let mut whole = formula;
    let mut left = nots;
    while let Some(token) = left.pop() {
        whole = Parsed::Not {
            token,
            inner: Box::new(alloc, whole)?,
        };
    }
    Ok(whole)
}

// The formula behind an `and`, if there is one.
fn behind_and(alloc: Global, left: Option<LeftPart>, right: Parsed) -> Result<Parsed, NoMemory>
    ensures { IfOk result (λ f. parsed_tree f ≡ and_with (option_map left_of left) (parsed_tree right)) }
{
    match left {
        None => Ok(right),
        Some(LeftPart { formula, token }) => Ok(Parsed::And {
            left: Box::new(alloc, formula)?,
            token,
            right: Box::new(alloc, right)?,
        }),
    }
}

impl Pending {
    // Nothing waits.
    fn new(alloc: Global) -> Pending
        ensures { pending_of result ≡ empty }
    {
        Pending {
            or: None,
            and: None,
            nots: Vec::new(alloc),
        }
    }

    // What the operand completes.
    fn filled(self, alloc: Global, operand: Parsed) -> Result<RightPart, NoMemory>
        ensures formula { let p = pending_of self in IfOk result
            (λ r. parsed_tree r.formula ≡ and_with p.ands (nots_of p.nots (parsed_tree operand))) }
        ensures or { let p = pending_of self in IfOk result (λ r. option_map left_of r.or ≡ p.ors) }
    {
        let Pending { or, and, nots } = self;
        let inner = negated(alloc, operand, nots)?;
        let formula = behind_and(alloc, and, inner)?;
        Ok(RightPart { formula, or })
    }
}

impl RightPart {
    // The formula with what an `or` joins it to.
    fn whole(self, alloc: Global) -> Result<Parsed, NoMemory>
        ensures { IfOk result
            (λ f. parsed_tree f ≡ or_with (option_map left_of self.or) (parsed_tree self.formula)) }
    {
        let RightPart { formula, or } = self;
        match or {
            None => Ok(formula),
            Some(
                LeftPart {
                    formula: left,
                    token,
                },
            ) => Ok(Parsed::Or {
                left: Box::new(alloc, left)?,
                token,
                right: Box::new(alloc, formula)?,
            }),
        }
    }
}

// A mark where an operand is due.
fn wanting(
    alloc: Global,
    pending: Pending,
    stack: Vec<Pending>,
    mark: Mark,
) -> Result<Option<Reader>, NoMemory>
    ensures { IfOk result
        (λ next. option_map state_of next ≡ from_want (pending_of pending)
        (stack_of stack.items) mark.symbol mark.token) }
{
    let token = mark.token;
    match mark.symbol {
        Symbol::Open => {
            let mut outside = stack;
            outside.push(pending)?;
            Ok(Some(Reader {
                mode: Mode::Wanting(Pending::new(alloc)),
                stack: outside,
            }))
        }
        Symbol::Not => {
            let mut negated = pending;
            negated.nots.push(token)?;
            Ok(Some(Reader {
                mode: Mode::Wanting(negated),
                stack,
            }))
        }
        Symbol::Leaf(leaf) => Ok(Some(Reader {
            mode: Mode::Lead {
                leaf,
                token,
                pending,
            },
            stack,
        })),
        Symbol::Term => Ok(Some(Reader {
            mode: Mode::Sided {
                left: token,
                pending,
            },
            stack,
        })),
        Symbol::Close | Symbol::And | Symbol::Or | Symbol::Sign(_) | Symbol::Other => Ok(None),
    }
}

// A closing parenthesis behind a formula.
fn closed(alloc: Global, inside: RightPart, stack: Vec<Pending>) -> Result<Option<Reader>, NoMemory>
    ensures { IfOk result
        (λ next. option_map state_of next ≡ behind_parenthesis (parsed_tree inside.formula)
        (option_map left_of inside.or) (stack_of stack.items)) }
{
    let mut outside = stack;
    let Some(pending) = outside.pop() else {
        return Ok(None);
    };
    let operand = inside.whole(alloc)?;
    let right = pending.filled(alloc, operand)?;
    Ok(Some(Reader {
        mode: Mode::Complete(right),
        stack: outside,
    }))
}

// A mark behind a formula.
fn complete(
    alloc: Global,
    right: RightPart,
    stack: Vec<Pending>,
    mark: Mark,
) -> Result<Option<Reader>, NoMemory>
    ensures { IfOk result
        (λ next. option_map state_of next ≡ from_have (parsed_tree right.formula)
        (option_map left_of right.or) (stack_of stack.items) mark.symbol mark.token) }
{
    let token = mark.token;
    match mark.symbol {
        Symbol::And => {
            let RightPart { formula, or } = right;
            Ok(Some(Reader {
                mode: Mode::Wanting(Pending {
                    or,
                    and: Some(LeftPart { formula, token }),
                    nots: Vec::new(alloc),
                }),
                stack,
            }))
        }
        Symbol::Or => {
            let formula = right.whole(alloc)?;
            Ok(Some(Reader {
                mode: Mode::Wanting(Pending {
                    or: Some(LeftPart { formula, token }),
                    and: None,
                    nots: Vec::new(alloc),
                }),
                stack,
            }))
        }
        Symbol::Close => closed(alloc, right, stack),
        Symbol::Open
        | Symbol::Not
        | Symbol::Leaf(_)
        | Symbol::Sign(_)
        | Symbol::Term
        | Symbol::Other => Ok(None),
    }
}

// A mark behind a term, whose sign is due.
fn sided(left: u32, pending: Pending, stack: Vec<Pending>, mark: Mark) -> Option<Reader>
    ensures { option_map state_of result ≡ from_sided left (pending_of pending)
        (stack_of stack.items) mark.symbol mark.token }
{
    let Symbol::Sign(sign) = mark.symbol else {
        return None;
    };
    Some(Reader {
        mode: Mode::Signed {
            left,
            sign,
            token: mark.token,
            pending,
        },
        stack,
    })
}

// Is it a sign?
fn is_sign(symbol: Symbol) -> bool
    ensures { result ≡ is_sign symbol }
{
    matches!(symbol, Symbol::Sign(_))
}

// A mark behind a word that is a formula, or a term where this mark is a sign.
fn lead(
    alloc: Global,
    leaf: Leaf,
    token: u32,
    pending: Pending,
    stack: Vec<Pending>,
    mark: Mark,
) -> Result<Option<Reader>, NoMemory>
    ensures { IfOk result
        (λ next. option_map state_of next ≡ from_lead leaf token (pending_of pending)
        (stack_of stack.items) mark.symbol mark.token) }
{
    if is_sign(mark.symbol) {
        return Ok(sided(token, pending, stack, mark));
    }
    let right = pending.filled(alloc, Parsed::Leaf { leaf, token })?;
    complete(alloc, right, stack, mark)
}

// Is it a mark that may stand beside a sign?
fn is_term(symbol: Symbol) -> bool
    ensures { result ≡ is_term symbol }
{
    matches!(symbol, Symbol::Leaf(_) | Symbol::Term)
}

// A mark behind a term and a sign, which a term makes this relation.
fn signed(
    alloc: Global,
    relation: Parsed,
    pending: Pending,
    stack: Vec<Pending>,
    mark: Mark,
) -> Result<Option<Reader>, NoMemory>
    ensures { IfOk result
        (λ next. option_map state_of next ≡ from_signed (parsed_tree relation) (pending_of pending)
        (stack_of stack.items) mark.symbol) }
{
    if !is_term(mark.symbol) {
        return Ok(None);
    }
    let right = pending.filled(alloc, relation)?;
    Ok(Some(Reader {
        mode: Mode::Complete(right),
        stack,
    }))
}

// The formula, if no parenthesis is open.
fn ended(alloc: Global, right: RightPart, stack: Vec<Pending>) -> Result<Option<Parsed>, NoMemory>
    ensures { IfOk result
        (λ read. option_map parsed_tree read ≡ whole_formula (parsed_tree right.formula)
        (option_map left_of right.or) (stack_of stack.items)) }
{
    if !stack.is_empty() {
        return Ok(None);
    }
    let formula = right.whole(alloc)?;
    Ok(Some(formula))
}

impl Reader {
    // Nothing is read yet.
    fn new(alloc: Global) -> Reader
        ensures { state_of result ≡ start }
    {
        Reader {
            mode: Mode::Wanting(Pending::new(alloc)),
            stack: Vec::new(alloc),
        }
    }

    // The reader behind one mark more, if that mark may come.
    fn step(self, alloc: Global, mark: Mark) -> Result<Option<Reader>, NoMemory>
        ensures { IfOk result (λ next. option_map state_of next ≡ step (state_of self) mark) }
    {
        let Reader { mode, stack } = self;
        match mode {
            Mode::Wanting(pending) => wanting(alloc, pending, stack, mark),
            Mode::Lead {
                leaf,
                token,
                pending,
            } => lead(alloc, leaf, token, pending, stack, mark),
            Mode::Sided { left, pending } => Ok(sided(left, pending, stack, mark)),
            Mode::Signed {
                left,
                sign,
                token,
                pending,
            } => {
                let relation = Parsed::Relation {
                    left,
                    sign,
                    token,
                    right: mark.token,
                };
                signed(alloc, relation, pending, stack, mark)
            }
            Mode::Complete(right) => complete(alloc, right, stack, mark),
        }
    }

    // The formula that was read, if the marks may end here.
    fn finish(self, alloc: Global) -> Result<Option<Parsed>, NoMemory>
        ensures { IfOk result (λ read. option_map parsed_tree read ≡ formula_at_end (state_of self)) }
    {
        let Reader { mode, stack } = self;
        match mode {
            Mode::Lead {
                leaf,
                token,
                pending,
            } => {
                let right = pending.filled(alloc, Parsed::Leaf { leaf, token })?;
                ended(alloc, right, stack)
            }
            Mode::Complete(right) => ended(alloc, right, stack),
            Mode::Wanting(_) | Mode::Sided { .. } | Mode::Signed { .. } => Ok(None),
        }
    }
}

/// Reads a formula of at most 512 marks, each of which it looks at once. `or` binds loosest, then `and`, then `not`; `and` and
/// `or` gather to the left. A word `true` or `false` is a term where a sign stands beside it, and else a formula. Where the
/// marks are no formula, the place of the first wrong one is told: no formula begins with the marks up to it, but some formula
/// begins with those before it.
pub fn parse_formula(alloc: Global, marks: &[Mark]) -> Result<Parsed, MarksRefused>
    requires { length marks.now ≤ MOST_TOKENS }
    ensures ok { IfOk result (λ f. MarksSay disj marks.now (parsed_tree f)) }
    ensures syntax { IfErr result (AreMarksRefused marks.now) }
    ensures only { IfErr result
        (λ refused. (place : ℕ) → refused ≡ Syntax place → (f : ParsedTree) → ¬ (MarksSay disj marks.now f)) }
{
    let mut reader = Reader::new(alloc);
    for (place, mark) in marks.iter().enumerate() {
        let Some(next) = reader.step(alloc, *mark)? else {
            return Err(MarksRefused::Syntax(place as u32));
        };
        reader = next;
    }
    match reader.finish(alloc)? {
        Some(formula) => Ok(formula),
        None => Err(MarksRefused::Syntax(marks.len() as u32)),
    }
}
