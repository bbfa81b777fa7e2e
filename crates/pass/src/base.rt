// Where the functions' words begin.
ghost use Rattle.std.specs.Prelude.{◌≡◌, ◌≤◌, Some, None, cond, nat_le};
ghost use Rattle.std.specs.Option.{option_map};

// The index at which the functions' words begin: at most 4,036, which leaves room for them.
#[derive(Clone, Copy, PartialEq, Eq, Debug)]
pub struct Base {
    pub(crate) index: usize,
    ghost leaves_room: { index ≤ 4036 },
}

impl Base {
    // The base at an index, or None beyond 4,036.
    pub fn new(index: usize) -> Option<Base>
        ensures { option_map (λ b. b.index) result ≡ cond (nat_le index 4036) (Some index) None }
    {
        if index > 4036 {
            return None;
        }
        Some(Base { index })
    }

    // Where the words begin.
    pub fn index(self) -> usize
        ensures { result ≡ self.index }
    {
        self.index
    }
}

// The beginning of the image, for a pass that writes nothing.
impl Default for Base {
    ghost is_default = { λ b. b.index ≡ 0 };

    fn default() -> Self {
        Base { index: 0 }
    }
}
