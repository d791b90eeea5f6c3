//! Keys: bytes that a path or a part of it is compared with.

ghost use Rattle.std.specs.Prelude.{◌≡◌, ◌↔◌, IsTrue};
ghost use Rattle.glob_path.specs.Key.{ComponentSuffix, KeyMatches, KeyMayMatchBelow, Prefix, Suffix, Literal, key_bytes, key_seen};

use crate::candidate::Candidate;
use crate::path_parts::{component_extension, last_component};

/// Bytes that a path or a part of it is compared with.
#[derive(Drop)]
pub enum Key {
    /// The key matches the path equal to it.
    Literal(Vec<u8>),
    /// The key matches the paths whose last component it is, also if that is `..`.
    BasenameLiteral(Vec<u8>),
    /// The key matches the paths whose last component has it as its extension: its bytes from the last `.` on.
    Extension(Vec<u8>),
    /// The key matches the path that it is, and the paths that end with `/` and the key.
    ComponentSuffix(Vec<u8>),
    /// The key matches the paths that end with it.
    Suffix(Vec<u8>),
    /// The key matches the paths that begin with it.
    Prefix(Vec<u8>),
}

impl Key {
    /// Returns the key's bytes.
    pub fn bytes(&self) -> &[u8]
        ensures { result.now ≡ key_bytes (key_seen self.now) }
    {
        match self {
            Key::Literal(bytes) => bytes,
            Key::BasenameLiteral(bytes) => bytes,
            Key::Extension(bytes) => bytes,
            Key::ComponentSuffix(bytes) => bytes,
            Key::Suffix(bytes) => bytes,
            Key::Prefix(bytes) => bytes,
        }
    }

    /// Returns whether the key matches a path. It compares the key with the path or a part of it, and allocates nothing.
    pub fn matches(&self, path: &Candidate<'_>) -> bool
        ensures { IsTrue result ↔ KeyMatches (key_seen self.now) path.now }
    {
        match self {
            Key::Literal(bytes) => path.path() == bytes.as_slice(),
            Key::BasenameLiteral(bytes) => last_component(path.path()) == bytes.as_slice(),
            Key::Extension(bytes) => component_extension(path.path()) == bytes.as_slice(),
            Key::ComponentSuffix(bytes) => has_component_suffix(path.path(), bytes),
            Key::Suffix(bytes) => has_suffix(path.path(), bytes),
            Key::Prefix(bytes) => has_prefix(path.path(), bytes),
        }
    }

    /// Returns whether the key may match some path below a folder, which is a path without a `/` at its end: the folder, a `/`,
    /// and any bytes. It compares the key with the folder, and allocates nothing.
    ///
    /// For [`Key::Literal`] and [`Key::Prefix`] it is exact. For other keys it is true, since a path below the folder may end with
    /// any bytes. The call does not check whether the key can be a last component or an extension at all.
    pub fn can_match_below(&self, folder: &[u8]) -> bool
        ensures { IsTrue result ↔ KeyMayMatchBelow (key_seen self.now) folder.now }
    {
        match self {
            Key::Literal(bytes) => is_below(bytes, folder),
            Key::Prefix(bytes) => may_have_prefix(folder, bytes),
            Key::BasenameLiteral(_) => true,
            Key::Extension(_) => true,
            Key::ComponentSuffix(_) => true,
            Key::Suffix(_) => true,
        }
    }
}

/// Returns whether the path is the key, or ends with `/` and the key.
fn has_component_suffix(path: &[u8], key: &[u8]) -> bool
    ensures { IsTrue result ↔ KeyMatches (ComponentSuffix key.now) path.now }
{
    match path.strip_suffix(key) {
        Some(front) => front.is_empty() || front.ends_with(b"/"),
        None => false,
    }
}

/// Returns whether the path ends with the key.
fn has_suffix(path: &[u8], key: &[u8]) -> bool
    ensures { IsTrue result ↔ KeyMatches (Suffix key.now) path.now }
{
    path.ends_with(key)
}

/// Returns whether the path begins with the key.
fn has_prefix(path: &[u8], key: &[u8]) -> bool
    ensures { IsTrue result ↔ KeyMatches (Prefix key.now) path.now }
{
    path.starts_with(key)
}

/// Returns whether the key begins with the folder and a `/`.
fn is_below(key: &[u8], folder: &[u8]) -> bool
    ensures { IsTrue result ↔ KeyMayMatchBelow (Literal key.now) folder.now }
{
    match key.strip_prefix(folder) {
        Some(rest) => rest.starts_with(b"/"),
        None => false,
    }
}

/// Returns whether some path below the folder begins with the key: whether the key begins with the folder and a `/`, or these
/// begin with the key.
fn may_have_prefix(folder: &[u8], key: &[u8]) -> bool
    ensures { IsTrue result ↔ KeyMayMatchBelow (Prefix key.now) folder.now }
{
    if is_below(key, folder) {
        return true;
    }
    has_prefix(folder, key)
}
