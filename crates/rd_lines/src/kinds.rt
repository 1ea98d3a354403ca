//! The line of a kind.
ghost use Rattle.std.specs.Prelude.{◌≢◌, ◌∷◌, ℕ, List, All, IfOk, IfErr, codes};
ghost use Rattle.rd_tokens.specs.Tokens.{LiesIn};
ghost use Rattle.rd_lines.specs.declared.forms.FormRefused.TheVariants.{NoMemory as MemoryRefused};
ghost use Rattle.rd_lines.specs.declared.forms.Stage.{Stage};
ghost use Rattle.rd_lines.specs.declared.forms.Version.{Version};
ghost use Rattle.rd_lines.specs.Lines.{IsFormRefused, RightLine, plain, said_of, words_of};

use crate::forms::{Form, FormRefused};
use crate::words::token_name;
use rd_tokens::Token;

// What a line with these tokens behind `kind` says. It takes no memory.
pub(crate) fn read_kind(line: &[u8], tokens: &[Token]) -> Result<Form, FormRefused>
    requires { All (LiesIn line.now) tokens.now }
    ensures ok { IfOk result (λ form. (version : Version) (stage : Stage) (methods : List (List ℕ))
        → RightLine version stage methods (plain (codes "kind") ∷ words_of line.now tokens.now)
        (said_of form)) }
    ensures refused { IfErr result (λ refused. (version : Version) (stage : Stage) (methods : List (List ℕ))
        → IsFormRefused version stage methods (plain (codes "kind") ∷ words_of line.now tokens.now) refused) }
    ensures memory { IfErr result (λ refused. refused ≢ MemoryRefused) }
{
    let Some((second, rest)) = tokens.split_first() else {
        return Err(FormRefused::Syntax(1));
    };
    let Some(name) = token_name(line, second) else {
        return Err(FormRefused::Syntax(1));
    };
    if !rest.is_empty() {
        return Err(FormRefused::Syntax(2));
    }
    Ok(Form::Kind(name))
}
