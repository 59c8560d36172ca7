//! Names of variables, whoever holds them.
ghost use Rattle.std.specs.Prelude.{◌≡◌, ℕ, ◌<◌, List, length, slice_get, Some};
ghost use Rattle.ps_model.specs.Names.{AreNames};

/// A list of names, no two of which are equal. The variable at place `i` is the name at place `i`.
pub trait NameView {
    // the bytes of each name
    ghost names: { Self → List (List ℕ) };

    ghost are_names: { (view : Self) → AreNames (names view) };

    /// The name at place `i`, from 0.
    fn name(&self, i: u32) -> &str
        requires { i < length (names self.now) }
        ensures { slice_get (names self.now) i ≡ Some result.now };
}
