// The parts of a text.
ghost use Rattle.std.specs.Prelude.{◌≡◌};
ghost use Rattle.byte_io.specs.Escapes.{escaped};

use std::rc::Rc;

/// Bytes, and behind them a name, as it is printed.
#[derive(Drop)]
pub(crate) struct Part {
    pub(crate) bytes: Vec<u8>,
    pub(crate) name: Rc<Vec<u8>>,
}

/// A name, and how it is printed.
#[derive(Drop)]
pub(crate) struct Printed<'n> {
    pub(crate) name: &'n [u8],
    pub(crate) text: Rc<Vec<u8>>,
    ghost is_printed: { text.value.items ≡ escaped name.now },
}
