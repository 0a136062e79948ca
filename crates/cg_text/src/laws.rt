// Laws of the definitions, each the contract of a function that does nothing.
ghost use Rattle.std.specs.Prelude.{◌≡◌, ℕ, List, true};
ghost use Rattle.std.specs.List.{list_all};
ghost use Rattle.cg_text.specs.Lines.{lines_of, joined, ended, is_one_line};

/// A text is its lines joined again, up to the last line's end; and lines without a line feed
/// are the lines of what they join to.
pub fn lines_are_the_text()
    ensures joined { (text : List ℕ) → joined (lines_of text) ≡ ended text }
    ensures apart { (lines : List (List ℕ)) → list_all is_one_line lines ≡ true → lines_of (joined lines) ≡ lines }
{}
