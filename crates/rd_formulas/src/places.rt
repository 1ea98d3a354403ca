//! The tokens of a formula's nodes.
ghost use Rattle.std.specs.Prelude.{◌≡◌, ◌+◌, ◌<◌, ◌≤◌, ℕ, [], ◌∷◌, length, IfOk, IfErr, Some, replicate, slice_get};
ghost use Rattle.rd_ecl.specs.Formulas.{nodes, tree_of};
ghost use Rattle.rd_formulas.specs.Meaning.{node_tokens};
ghost use Rattle.rd_grammar.specs.Grammar.{parsed_tree};
ghost use Rattle.rd_grammar.specs.Numbers.{named_by};

use rd_base::MOST_TOKENS;
use rd_ecl::Formula;
use rd_grammar::{Leaf, Parsed};

// The token of the node with this number, where a node of that token is the first; else the number less one.
fn own(token: u32, node: u32) -> Result<u32, u32>
    ensures found { IfOk result (λ found. slice_get (token ∷ []) node ≡ Some found) }
    ensures past { IfErr result (λ rest. node ≡ 1 + rest) }
{
    if node == 0 { Ok(token) } else { Err(node - 1) }
}

// The same for two nodes of one token.
fn own_two(token: u32, node: u32) -> Result<u32, u32>
    ensures found { IfOk result (λ found. slice_get (token ∷ token ∷ []) node ≡ Some found) }
    ensures past { IfErr result (λ rest. node ≡ 2 + rest) }
{
    if node < 2 { Ok(token) } else { Err(node - 2) }
}

// The same for so many nodes of one token.
fn own_each(token: u32, count: u32, node: u32) -> Result<u32, u32>
    ensures found { IfOk result (λ found. slice_get (replicate count token) node ≡ Some found) }
    ensures past { IfErr result (λ rest. node ≡ count + rest) }
{
    if node < count {
        Ok(token)
    } else {
        Err(node - count)
    }
}

// The token of the node with this number in post-order; where there are fewer nodes, the number less theirs.
fn seek(parsed: &Parsed, formula: &Formula, node: u32) -> Result<u32, u32>
    requires few { length (named_by (parsed_tree parsed.now)) ≤ MOST_TOKENS }
    requires nodes { nodes (tree_of formula.now) ≤ MOST_TOKENS }
    ensures found { IfOk result
        (λ token. slice_get
        (node_tokens (parsed_tree parsed.now) (tree_of formula.now)) node ≡ Some token) }
    ensures past { IfErr result
        (λ rest. node ≡ length (node_tokens (parsed_tree parsed.now) (tree_of formula.now)) + rest) }
{
    match parsed {
        Parsed::Leaf { leaf, token } => match leaf {
            Leaf::Truth(_) => own(*token, node),
            Leaf::Name => own_each(*token, formula.nodes(), node),
        },
        Parsed::Relation { token, .. } => match formula {
            Formula::Not(_) => own_two(*token, node),
            _ => own(*token, node),
        },
        Parsed::Not { token, inner } => match formula {
            Formula::Not(part) => match seek(inner, part, node) {
                Ok(found) => Ok(found),
                Err(rest) => own(*token, rest),
            },
            _ => Err(node),
        },
        Parsed::And { left, token, right } => match formula {
            Formula::And(first, second) => match seek(left, first, node) {
                Ok(found) => Ok(found),
                Err(rest) => match seek(right, second, rest) {
                    Ok(found) => Ok(found),
                    Err(rest) => own(*token, rest),
                },
            },
            _ => Err(node),
        },
        Parsed::Or { left, token, right } => match formula {
            Formula::Or(first, second) => match seek(left, first, node) {
                Ok(found) => Ok(found),
                Err(rest) => match seek(right, second, rest) {
                    Ok(found) => Ok(found),
                    Err(rest) => own(*token, rest),
                },
            },
            _ => Err(node),
        },
    }
}

/// The number of the token of a formula's node, by the node's number in post-order: its sign, `not`, `and`, `or`, or word.
/// What was read has at most 512 tokens, and the formula as many nodes. It takes no memory.
pub fn token_of_node(parsed: &Parsed, formula: &Formula, node: u32) -> Option<u32>
    requires few { length (named_by (parsed_tree parsed.now)) ≤ MOST_TOKENS }
    requires nodes { nodes (tree_of formula.now) ≤ MOST_TOKENS }
    ensures { result ≡ slice_get (node_tokens (parsed_tree parsed.now) (tree_of formula.now)) node }
{
    seek(parsed, formula, node).ok()
}
