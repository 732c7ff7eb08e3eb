//! What a run needs of its numbers.

ghost use Rattle.std.specs.Prelude.{◌≡◌};
ghost use Rattle.def_meaning.specs.Numbers.{Numbers};

/// A number of a run. Tests, subscripts, bounds and quotients look at its word alone.
pub trait Number: Copy {
    /// The numbers of the definition.
    ghost numbers: { Numbers Self };

    /// The number of a word, without a tangent.
    fn of_word(word: i64) -> Self
        ensures { result ≡ numbers.of_word word };

    /// Its word.
    fn word(self) -> i64
        ensures { result ≡ numbers.shown self };

    fn negation(self) -> Self
        ensures { result ≡ numbers.negation self };

    fn sum(self, other: Self) -> Self
        ensures { result ≡ numbers.sum self other };

    fn difference(self, other: Self) -> Self
        ensures { result ≡ numbers.difference self other };

    fn product(self, other: Self) -> Self
        ensures { result ≡ numbers.product self other };

    /// Its power; that of exponent 0 is 1, without a tangent.
    fn power(self, exponent: u32) -> Self
        ensures { result ≡ numbers.raised_to self exponent };

    /// A clone is the same number.
    ghost clones_equal: { (x y : Self) → Self.is_clone x y → y ≡ x };

    /// A number can always be cloned.
    ghost never_fails: { (x : Self) → Self.is_infallible x };
}
