//! Where a byte of a pattern stands.

ghost use Rattle.std.specs.Prelude.{◌≡◌};
ghost use Rattle.ignore_pattern.specs.Elements.{place_after, may_cross};
ghost use Rattle.ignore_pattern.specs.declared.place.Place.TheVariants.{Elsewhere};

/// Where a byte of a pattern stands.
#[derive(Clone, Copy)]
pub enum Place {
    /// All bytes before it are plain, or there are none.
    Start,
    /// It follows a `/`.
    AfterSlash,
    Elsewhere,
}

impl Place {
    /// Returns the place of the byte after a plain byte at this place.
    pub fn after(self, c: u8) -> Place
        ensures { result ≡ place_after self c }
    {
        match self {
            Place::Start => Place::Start,
            Place::AfterSlash | Place::Elsewhere => Place::after_escaped(c),
        }
    }

    /// Returns the place of the byte after an escaped byte.
    pub fn after_escaped(c: u8) -> Place
        ensures { result ≡ place_after Elsewhere c }
    {
        if c == b'/' {
            Place::AfterSlash
        } else {
            Place::Elsewhere
        }
    }

    /// Returns whether stars at this place can stand for folders.
    pub fn may_cross(self) -> bool
        ensures { result ≡ may_cross self }
    {
        match self {
            Place::Start | Place::AfterSlash => true,
            Place::Elsewhere => false,
        }
    }
}
