// The rules of a proof tree: document 01, the rules' numbers in the tree.
ghost use Rattle.std.specs.Prelude.{◌≡◌};
ghost use Rattle.step.specs.Trees.{rule_number};

// By which rule a node's conclusion comes from its premises.
#[derive(Clone, Copy, Debug, PartialEq, Eq)]
pub enum Inference {
    Ident = 0,
    TrueIntro = 1,
    AndIntro = 2,
    AndElimFst = 3,
    AndElimSnd = 4,
    ImplIntro = 5,
    ImplElim = 6,
    OrIntroFst = 7,
    OrIntroSnd = 8,
    OrElim = 9,
    FalsumElim = 10,
    ForAllIntro = 11,
    ForAllElim = 12,
    ExistsIntro = 13,
    ExistsElim = 14,
    Sorry = 15,
    AlphaEq = 16,
}

impl Inference {
    // Its number in the tree.
    pub fn number(self) -> u8
        ensures { result ≡ rule_number self }
    {
        self as u8
    }
}
