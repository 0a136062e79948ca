// The words that lines begin with.
ghost use Rattle.std.specs.Prelude.{◌≡◌};
ghost use Rattle.cg_text.specs.Words.{namespace_of, role_of};

/// What a name is of.
#[derive(Clone, Copy, Debug, PartialEq, Eq)]
pub enum Namespace {
    Object,
    File,
    Function,
}

/// What a name line's name is for.
#[derive(Clone, Copy, Debug, PartialEq, Eq)]
pub enum Role {
    /// It belongs to the cost lines that follow.
    Own,
    /// It belongs to the function that is called next.
    Called,
    /// It belongs to the target of a jump, and sets nothing.
    Jumped,
}

/// The word of a name line.
#[derive(Clone, Copy, Debug, PartialEq, Eq)]
pub enum NameWord {
    /// The object of the lines that follow.
    Ob,
    /// Their file.
    Fl,
    /// The same, in inlined code.
    Fi,
    /// The same, back from inlined code.
    Fe,
    /// Their function.
    Fn,
    /// The object of the next called function.
    Cob,
    /// Its file.
    Cfi,
    /// The same, in the older spelling.
    Cfl,
    /// Its name.
    Cfn,
    /// The file of a jump's target.
    Jfi,
    /// The function of a jump's target.
    Jfn,
}

impl NameWord {
    /// What the word names: objects, files and functions have identifiers of their own.
    pub fn namespace(self) -> Namespace
        ensures { result ≡ namespace_of self }
    {
        match self {
            NameWord::Ob | NameWord::Cob => Namespace::Object,
            NameWord::Fn | NameWord::Cfn | NameWord::Jfn => Namespace::Function,
            NameWord::Fl
            | NameWord::Fi
            | NameWord::Fe
            | NameWord::Cfi
            | NameWord::Cfl
            | NameWord::Jfi => Namespace::File,
        }
    }

    /// What the name is for.
    pub fn role(self) -> Role
        ensures { result ≡ role_of self }
    {
        match self {
            NameWord::Ob | NameWord::Fl | NameWord::Fi | NameWord::Fe | NameWord::Fn => Role::Own,
            NameWord::Cob | NameWord::Cfi | NameWord::Cfl | NameWord::Cfn => Role::Called,
            NameWord::Jfi | NameWord::Jfn => Role::Jumped,
        }
    }
}

/// The key of a header line.
#[derive(Clone, Copy, Debug, PartialEq, Eq)]
pub enum HeaderKey {
    Version,
    Positions,
    Events,
    Event,
    Summary,
    Totals,
    Thread,
    /// A key that says nothing about costs.
    Other,
}
