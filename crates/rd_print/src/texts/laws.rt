//! The law of texts.
ghost use Rattle.std.specs.Prelude.{◌≡◌, ℕ, List, length, take, drop, ◌++◌, All, true};
ghost use Rattle.std.specs.List.{AllPass};
ghost use Rattle.rd_base.specs.Spelling.{is_plain};
ghost use Rattle.rd_ecl.specs.Formulas.{Tree, Fits, has_slots, AreValues};
ghost use Rattle.rd_ecl.specs.Variables.{IsVariable};
ghost use Rattle.rd_formulas.specs.declared.scope.Scope.{Scope};
ghost use Rattle.rd_formulas.specs.Reading.{SaysFormula};
ghost use Rattle.rd_tokens.specs.Tokens.{AreTokens};
ghost use Rattle.rd_tokens.specs.declared.sorts.Token.{Token};
ghost use Rattle.rd_tokens.specs.declared.words.dialects.Dialect.TheVariants.{Sided};
ghost use Rattle.rd_print.specs.declared.canonical.word_list.PrintedWord.{PrintedWord};
ghost use Rattle.rd_print.specs.Canonical.{AreWords, canonical_words};
ghost use Rattle.rd_print.specs.Text.{IsRightWord, words_text};

/// The law of texts: the tokens of the text of sound words are these words, and no other sound words have that text, whose
/// bytes are visible or spaces. The canonical words of a formula are sound: where they stand behind sound words, the tokens
/// behind the tokens of these say the formula again.
pub fn law_of_texts()
    ensures again { (words : List PrintedWord) (tokens : List Token) → All IsRightWord words →
        AreTokens (words_text words) tokens → AreWords (words_text words) tokens words }
    ensures parts { (front words : List PrintedWord) (tokens : List Token) → All IsRightWord (front ++ words) →
        AreTokens (words_text (front ++ words)) tokens
        → AreWords (words_text (front ++ words)) (take (length front) tokens) front
        × AreWords (words_text (front ++ words)) (drop (length front) tokens) words }
    ensures bytes { (words : List PrintedWord) → All IsRightWord words → AllPass is_plain (words_text words) }
    ensures one { (first second : List PrintedWord) → All IsRightWord first → All IsRightWord second →
        words_text first ≡ words_text second → first ≡ second }
    ensures sound { (first second : List (List ℕ)) (f : Tree) → All IsVariable first →
        All IsVariable second
        → Fits f (length first) (length second) → AreValues f →
        All IsRightWord (canonical_words first second f) }
    ensures formula { (front : List PrintedWord) (tokens : List Token) (scope : Scope) (f : Tree) →
        scope.dialect ≡ Sided → All IsRightWord front → All IsVariable scope.first.now
        → All IsVariable scope.second.now →
        Fits f (length scope.first.now) (length scope.second.now) → has_slots f ≡ true → AreValues f
        → scope.line.now ≡ words_text (front ++ canonical_words scope.first.now scope.second.now f) →
        AreTokens scope.line.now tokens
        → scope.tokens.now ≡ drop (length front) tokens → SaysFormula scope f }
{}
