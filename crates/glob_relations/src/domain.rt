//! The paths that questions are about.

ghost use Rattle.std.specs.Prelude.{◌≡◌};
ghost use Rattle.glob_relations.specs.inner.Places.{kind_of, place_after, is_last_place, first_place};

/// A set of paths.
#[derive(Clone, Copy)]
pub enum Domain {
    /// All lists of bytes.
    AllPaths,
    /// Relative paths as file systems have them: components that are separated by a `/` each; no component is empty, `.` or `..`,
    /// or has a NUL.
    RelativePaths,
}

impl Domain {
    /// Returns the place where a path begins.
    pub(crate) fn first_place(self) -> PathPlace
        ensures { result ≡ first_place self }
    {
        match self {
            Domain::AllPaths => PathPlace::Anywhere,
            Domain::RelativePaths => PathPlace::Start,
        }
    }
}

/// How far the bytes of a path so far decide whether it is in a domain.
#[derive(Clone, Copy, PartialEq, Eq, Hash)]
pub enum PathPlace {
    /// In a path of any bytes.
    Anywhere,
    /// At the start of a component.
    Start,
    /// After a component's first byte, `.`.
    Dot,
    /// After a component's first two bytes, `..`.
    TwoDots,
    /// In a component that may end here.
    Inside,
}

impl PathPlace {
    /// Returns the place after a byte, or `None` if no path of the domain begins so.
    pub fn after(self, byte: u8) -> Option<PathPlace>
        ensures { result ≡ place_after self byte }
    {
        match (self, kind_of(byte)) {
            (PathPlace::Anywhere, _) => Some(PathPlace::Anywhere),
            (PathPlace::Start, Kind::Point) => Some(PathPlace::Dot),
            (PathPlace::Dot, Kind::Point) => Some(PathPlace::TwoDots),
            (PathPlace::Inside, Kind::Slash) => Some(PathPlace::Start),
            (_, Kind::Point | Kind::Other) => Some(PathPlace::Inside),
            (_, Kind::Slash | Kind::Zero) => None,
        }
    }

    /// Returns whether a path of the domain may end at the place.
    pub fn is_last(self) -> bool
        ensures { result ≡ is_last_place self }
    {
        matches!(self, PathPlace::Anywhere | PathPlace::Inside)
    }
}

/// The kinds of bytes in relative paths.
#[derive(Clone, Copy)]
pub enum Kind {
    Slash,
    Point,
    Zero,
    Other,
}

fn kind_of(byte: u8) -> Kind
    ensures { result ≡ kind_of byte }
{
    if byte == b'/' {
        Kind::Slash
    } else if byte == b'.' {
        Kind::Point
    } else if byte == 0 {
        Kind::Zero
    } else {
        Kind::Other
    }
}
