// What takes a text.
ghost use Rattle.std.specs.Prelude.{MatchResult};

use std::io;

/// Takes a text, a piece at a time.
pub trait TextSink {
    ghost use Rattle.std.specs.Prelude.{ℕ, List};

    /// What it is once it took a whole piece.
    ghost takes: { Self → List ℕ → Self → Type 0 };

    /// What it is once it stopped at a piece, of which it took the front at most.
    ghost stops: { Self → List ℕ → Self → Type 0 };

    /// Takes the next piece, whole.
    fn take_piece(&mut self, piece: &[u8]) -> io::Result<()>
        ensures { MatchResult result (λ done. takes self.old piece.now self.new) (λ e. stops self.old piece.now self.new) };
}
