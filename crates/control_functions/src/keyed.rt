//! Rows that have keys.
ghost use Rattle.std.specs.Prelude.{◌≡◌, ℕ};

/// A row of a table, which is found by its key.
pub(crate) trait Keyed {
    /// The function or mode of the row.
    type Of;

    ghost has_key: { Self → ℕ };

    ghost is_of: { Self → Self.Of };

    /// Returns its key.
    fn key(&self) -> u32
        ensures { result ≡ has_key self.now };

    /// Returns the function or mode of this row.
    fn of(&self) -> Self::Of
        ensures { result ≡ is_of self.now };
}
