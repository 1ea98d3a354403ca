//! The law of the lines.
ghost use Rattle.std.specs.Prelude.{◌≡◌, ℕ, List, ◌++◌};
ghost use Rattle.rd_grammar.specs.FirstWrong.{WrongAt};
ghost use Rattle.rd_lines.specs.declared.forms.Stage.{Stage};
ghost use Rattle.rd_lines.specs.declared.forms.Version.{Version};
ghost use Rattle.rd_lines.specs.Lines.{LineWord, SaidForm, RightLine};

/// The law of the lines: a line says one thing, and is wrong nowhere if it says something; and it is wrong at one place at most.
pub fn law_of_lines()
    ensures one { (version : Version) (stage : Stage) (methods : List (List ℕ)) (words : List LineWord) (x y : SaidForm)
        → RightLine version stage methods words x → RightLine version stage methods words y → x ≡ y }
    ensures right { (version : Version) (stage : Stage) (methods : List (List ℕ)) (front rest : List LineWord)
        (x : SaidForm)
        → RightLine version stage methods (front ++ rest) x →
        ¬ (WrongAt (RightLine version stage methods) front rest) }
    ensures place { (version : Version) (stage : Stage) (methods : List (List ℕ)) (front rest others more : List LineWord) →
        front ++ rest ≡ others ++ more
        → WrongAt (RightLine version stage methods) front rest →
        WrongAt (RightLine version stage methods) others more → front ≡ others }
{}
