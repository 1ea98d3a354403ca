//! The law of the words.
ghost use Rattle.std.specs.Prelude.{◌≡◌, ◌↔◌, ℕ, List, Bool, true};
ghost use Rattle.rd_base.specs.declared.values.Value.TheVariants.{Bool as TruthValue};
ghost use Rattle.rd_tokens.specs.declared.sorts.Sort.{Sort};
ghost use Rattle.rd_tokens.specs.declared.sorts.Sort.TheVariants.{Word};
ghost use Rattle.rd_tokens.specs.declared.sorts.Token.{Token};
ghost use Rattle.rd_tokens.specs.Tokens.{IsToken};
ghost use Rattle.rd_grammar.specs.declared.marks.Mark.{Mark};
ghost use Rattle.rd_grammar.specs.declared.marks.Symbol.{Symbol};
ghost use Rattle.rd_grammar.specs.declared.marks.Symbol.TheVariants.{Leaf as LeafOf};
ghost use Rattle.rd_grammar.specs.declared.marks.Leaf.TheVariants.{Name, Truth};
ghost use Rattle.rd_grammar.specs.Grammar.{is_term};
ghost use Rattle.rd_grammar.specs.Numbers.{AreNumbered};
ghost use Rattle.rd_tokens.specs.declared.words.dialects.Dialect.{Dialect};
ghost use Rattle.rd_tokens.specs.declared.words.dialects.Dialect.TheVariants.{Named};
ghost use Rattle.rd_tokens.specs.declared.words.terms.Said.{Said};
ghost use Rattle.rd_tokens.specs.declared.words.terms.Said.TheVariants.{Value as ValueTerm};
ghost use Rattle.rd_tokens.specs.Words.{AreMarks, IsSidedWord, IsSymbolIn, IsTermIn, SaysTermIn};

/// The law of the words, whatever they may speak of: each token is one symbol, and bytes say at most one term. A token that is a
/// term for the grammar says one, and a word that says one is a term for the grammar; the words `true` and `false` say their values,
/// and a leaf that is a name is a variable with its side. The marks of a line are one list, in which each mark's number is its place.
pub fn law_of_words()
    // there is exactly one symbol
    ensures some { (dialect : Dialect) (sort : Sort) (bytes : List ℕ) →
        (symbol : Symbol) × IsSymbolIn dialect sort bytes symbol }
    ensures one { (dialect : Dialect) (sort : Sort) (bytes : List ℕ) (x y : Symbol) →
        IsSymbolIn dialect sort bytes x → IsSymbolIn dialect sort bytes y → x ≡ y }

    // terms say one thing, and their symbols tell them
    ensures terms { (dialect : Dialect) (bytes : List ℕ) (s t : Said) → SaysTermIn dialect bytes s →
        SaysTermIn dialect bytes t → s ≡ t }
    ensures said { (dialect : Dialect) (sort : Sort) (bytes behind : List ℕ) (x : Symbol) →
        IsToken sort bytes behind → IsSymbolIn dialect sort bytes x → is_term x ≡ true →
        IsTermIn dialect bytes }
    ensures found { (dialect : Dialect) (bytes : List ℕ) (x : Symbol) → IsTermIn dialect bytes →
        IsSymbolIn dialect Word bytes x → is_term x ≡ true }
    ensures truth { (dialect : Dialect) (bytes : List ℕ) (value : Bool) →
        (IsSymbolIn dialect Word bytes (LeafOf (Truth value))
        ↔ SaysTermIn dialect bytes (ValueTerm (TruthValue value))) }
    ensures names { (dialect : Dialect) (sort : Sort) (bytes : List ℕ) →
        IsSymbolIn dialect sort bytes (LeafOf Name) → (dialect ≡ Named) × IsSidedWord sort bytes }

    // the marks of a line
    ensures numbered { (dialect : Dialect) (line : List ℕ) (tokens : List Token) (marks : List Mark) →
        AreMarks dialect line tokens marks → AreNumbered marks }
    ensures alike { (dialect : Dialect) (line : List ℕ) (tokens : List Token) (first second : List Mark) →
        AreMarks dialect line tokens first → AreMarks dialect line tokens second → first ≡ second }
{}
