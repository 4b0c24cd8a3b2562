//! Names that a program knows beforehand.
ghost use Rattle.std.specs.Prelude.{◌≡◌, ℕ, List, true};
ghost use Rattle.pt_tree.specs.Name.{is_name};

/// Names that a program knows beforehand, as an enum of them has it. Each is a name, so that the
/// bytes of a name that is made of one (`Name::of_known`) aren't looked at again.
pub trait KnownName: Copy {
    /// The name's bytes.
    ghost known_text: { Self → List ℕ };

    /// The name's text.
    fn text(self) -> &'static str
        ensures { result.now ≡ known_text self };

    /// It may be a name.
    ghost known_is_name: { (known : Self) → is_name (known_text known) ≡ true };
}
