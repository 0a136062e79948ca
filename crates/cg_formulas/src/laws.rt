// Laws of the definitions, each the contract of a function that does nothing.
ghost use Rattle.std.specs.Prelude.{ℕ, List, Ok};
ghost use Rattle.cg_formulas.specs.Formulas.{Definition, derived_value, AddsUp, Repeats, ChangesNothing};
ghost use Rattle.cg_formulas.specs.Flats.{FlatIs, GivesValues};
ghost use Rattle.cg_formulas.specs.declared.flats.Flat.{Flat};

/// The value of a sum of costs is the sum of the values.
pub fn values_add_up()
    ensures { (events : List (List ℕ)) (back : List Definition) (name : List ℕ) → AddsUp (derived_value events back name) }
{}

/// A definition that is repeated with the same terms changes nothing.
pub fn a_repeat_changes_nothing()
    ensures { (events : List (List ℕ)) (d : Definition) (back : List Definition) → Repeats d back → ChangesNothing events d back }
{}

/// The coefficients of definitions give the values that the definitions give.
pub fn coefficients_give_the_values()
    ensures { (flat : Flat) (events : List (List ℕ)) (back : List Definition) → FlatIs (Ok flat) events back → GivesValues flat events back }
{}
