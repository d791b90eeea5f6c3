//! A path with parts of it that were found.

ghost use Rattle.std.specs.Prelude.{◌≡◌, ℕ, List, IfSome, ◌==◌, ◌<◌, length};
ghost use Rattle.bit_sets.specs.Texts.{AllBytes};
ghost use Rattle.glob_path.specs.PathParts.{component_extension, last_component, last_position, basename_of, extension_in};

use bstr::ByteSlice;
use memchr::memrchr2;
use std::marker::Model;

/// A path, and those parts of it that were found: a call that needs a part in several places finds it once. Contracts see the
/// path's bytes.
pub struct PathParts<'p> {
    path: &'p [u8],
    component: Option<&'p [u8]>,
    extension: Option<&'p [u8]>,
}

impl<'p> Drop for PathParts<'p> {
    fn drop(self) {
        let PathParts {
            path: _,
            component: _,
            extension: _,
        } = self;
    }
}

impl<'p> Model for PathParts<'p> {
    ghost Value = { List ℕ };

    ghost view = { λ p. p.path.now };

    ghost invariant = { λ p. IfSome p.component (λ part. part.now ≡ last_component p.path.now) × IfSome p.extension (λ part. part.now ≡ component_extension p.path.now) };
}

impl<'p> PathParts<'p> {
    /// Returns a path whose parts are not found yet. It reads none of the path.
    pub fn new(path: &'p [u8]) -> PathParts<'p>
        ensures path { result ≡ path.now }
        ensures bytes { AllBytes result }
    {
        PathParts {
            path,
            component: None,
            extension: None,
        }
    }

    /// Finds the last component, for the calls that ask for it.
    pub fn find_last_component(&mut self)
        ensures { self.new ≡ self.old }
    {
        self.component = Some(last_component(self.path));
    }

    /// Finds the extension of the last component, for the calls that ask for it.
    pub fn find_extension(&mut self)
        ensures { self.new ≡ self.old }
    {
        self.extension = Some(component_extension(self.path));
    }

    /// Returns the path's bytes.
    pub fn path(&self) -> &'p [u8]
        ensures { result.now ≡ self.now }
    {
        self.path
    }

    /// Returns the bytes after the path's last `/`, or the whole path if it has no `/`. They may be `..`, unlike a basename.
    ///
    /// If they were not found, it searches the path from its end to its last `/`, and reads no byte before that.
    pub fn last_component(&self) -> &'p [u8]
        ensures { result.now ≡ last_component self.now }
    {
        match self.component {
            Some(part) => part,
            None => last_component(self.path),
        }
    }

    /// Returns the bytes of the path's last component from its last `.` on, or nothing if it has no `.`. If the component is
    /// `..`, they are `.`.
    ///
    /// If they were not found, it searches the path from its end to its last `.` or `/`, and reads no byte before that.
    pub fn extension(&self) -> &'p [u8]
        ensures { result.now ≡ component_extension self.now }
    {
        match self.extension {
            Some(part) => part,
            None => component_extension(self.path),
        }
    }
}

/// Returns the position of the last such byte. It reads the bytes from the end to that position.
#[tactic(auto, using(crate::proofs::lemmas::LastPositions::last_position_found))]
fn last_position(bytes: &[u8], byte: u8) -> Option<usize>
    ensures position { result ≡ last_position (λ b. b == byte) bytes.now }
    ensures bound { IfSome result (λ k. k < length bytes.now) }
{
    bytes.rfind_byte(byte)
}

/// Returns the bytes after the last `/` of a path, or the whole path if it has none.
#[tactic(auto, using(crate::proofs::lemmas::LastPositions::take_rest))]
pub fn last_component(path: &[u8]) -> &[u8]
    ensures { result.now ≡ last_component path.now }
{
    match last_position(path, b'/') {
        Some(position) => &path[position + 1..],
        None => path,
    }
}

/// Returns the basename of a path: the bytes after its last `/`, but nothing if these are `..`.
pub fn basename(path: &[u8]) -> &[u8]
    ensures { result.now ≡ basename_of path.now }
{
    let component = last_component(path);
    if component == b"..".as_slice() {
        &component[..0]
    } else {
        component
    }
}

/// Returns the bytes of a component or a basename from its last `.` on, or nothing if it has none.
#[tactic(auto, using(crate::proofs::lemmas::LastPositions::take_rest))]
pub fn extension(name: &[u8]) -> &[u8]
    ensures { result.now ≡ extension_in name.now }
{
    match last_position(name, b'.') {
        Some(position) => &name[position..],
        None => &name[..0],
    }
}

/// Returns the bytes of a path's last component from its last `.` on, or nothing if it has none. It reads the path from its end
/// to the last `.` or `/`, and no byte before that.
pub fn component_extension(path: &[u8]) -> &[u8]
    ensures { result.now ≡ component_extension path.now }
{
    if let Some(position) = memrchr2(b'.', b'/', path) {
        if path[position] == b'.' {
            return &path[position..];
        }
    }
    &path[path.len()..]
}
