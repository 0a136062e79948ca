// The names of records as they are lent.

/// What a name is known by within its name space, while its file is read: a name that comes again by
/// the same mark has the same text.
#[derive(Clone, Copy)]
pub enum Mark {
    /// A name with an identifier, by its place among those of its name space that have one, from 0.
    Held(usize),
    /// A name in force without an identifier, by how many such names of its name space had come.
    Own(u64),
    /// The name without an identifier of what is called, by how many such names had come.
    Called(u64),
    /// `???`, where no name was given.
    Unnamed,
}

/// A name, and the mark that it comes with.
#[derive(Clone, Copy)]
pub struct LentName<'a> {
    /// Its bytes.
    pub text: &'a [u8],
    pub mark: Mark,
}

/// The names of an object, a file and a function.
#[derive(Clone, Copy)]
pub struct LentNames<'a> {
    pub object: LentName<'a>,
    pub file: LentName<'a>,
    pub function: LentName<'a>,
}
