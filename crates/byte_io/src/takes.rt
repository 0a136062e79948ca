// What takes the bytes of a file.
ghost use Rattle.std.specs.Prelude.{OnOk, length};

use std::alloc::AllocError;

/// Takes the bytes of a file, a piece at a time.
pub trait ByteSink {
    ghost use Rattle.std.specs.Prelude.{ℕ, List};
    ghost use Rattle.byte_io.specs.Takes.{HasRoom, Takes};

    /// What is said of a file beforehand, as its kind.
    ghost Form: { Type 0 };

    /// It has taken these bytes of a file of this form.
    ghost has_taken: { Self → Form → List ℕ → Type 0 };

    /// Takes the next piece.
    fn feed(&mut self, piece: &[u8]) -> Result<(), AllocError>
        requires { HasRoom has_taken self.old (length piece.now) }
        ensures { OnOk result (Takes has_taken self.old piece.now self.new) };
}
