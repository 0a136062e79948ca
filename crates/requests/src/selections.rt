// Which runs a question is about.
ghost use Rattle.std.specs.Prelude.{◌≡◌, option_map};
ghost use Rattle.requests.specs.Plain.{plain_selection};

use cg_text::ListVec;

/// Which runs a question is about.
#[derive(Drop)]
pub enum Selection<N> {
    All,
    /// The run of this number.
    Run(u32),
    /// The members of the group of this name.
    Group(N),
}

impl Selection<ListVec<u8>> {
    /// The same, with its name lent.
    pub fn lent(&self) -> Selection<&[u8]>
        ensures { plain_selection result ≡ self.now }
    {
        match self {
            Selection::All => Selection::All,
            Selection::Run(number) => Selection::Run(*number),
            Selection::Group(name) => Selection::Group(name.as_slice()),
        }
    }
}

/// A selection that may be there, with its name lent.
pub fn lent_second(second: &Option<Selection<ListVec<u8>>>) -> Option<Selection<&[u8]>>
    ensures { option_map plain_selection result ≡ second.now }
{
    match second {
        Some(selection) => Some(selection.lent()),
        None => None,
    }
}
