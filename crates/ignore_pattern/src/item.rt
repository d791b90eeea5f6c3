//! Items of a character class, and how each is read.

ghost use Rattle.std.specs.Prelude.{◌≡◌, ◌≤◌, ◌<◌, ◌+◌, ◌==◌, Some, None, IfSome, length};
ghost use Rattle.std.specs.List.{position};
ghost use Rattle.std.specs.Str.{bytes_eq};
ghost use Rattle.ignore_pattern.specs.declared.item.Item.TheVariants.{Member, Range};
ghost use Rattle.ignore_pattern.specs.Classes.{class_named, escaped_range_at, hyphen_at, name_at, bracket_at, escape_at, item_at, named_has, item_has};

use crate::line::before_last;

/// A part of a class.
#[derive(Clone, Copy, Debug)]
pub enum Item {
    /// A byte.
    Member(u8),
    /// Two bytes with a `-` between them. The first is also an item before this range.
    Range(u8, u8),
    /// `[:..:]`
    Named(ClassName),
}

/// A class that has a name in `[:..:]`.
#[derive(Clone, Copy, Debug)]
pub enum ClassName {
    Alnum,
    Alpha,
    Blank,
    Cntrl,
    Digit,
    Graph,
    Lower,
    Print,
    Punct,
    Space,
    Upper,
    Xdigit,
}

/// The item at a position of a class.
#[derive(Clone, Copy)]
pub struct ItemAt {
    pub item: Item,
    /// The number of bytes that belong to the item after its first.
    pub more: usize,
    /// The byte that a `-` after the item makes a range from.
    pub last: Option<u8>,
}

/// Returns whether the name is a word.
fn spells(name: &[u8], word: &[u8]) -> bool
    ensures { result ≡ bytes_eq name.now word.now }
{
    name == word
}

impl ClassName {
    /// Returns the class of this name.
    fn of(name: &[u8]) -> Option<ClassName>
        ensures { result ≡ class_named name.now }
    {
        if spells(name, b"alnum") {
            Some(ClassName::Alnum)
        } else if spells(name, b"alpha") {
            Some(ClassName::Alpha)
        } else if spells(name, b"blank") {
            Some(ClassName::Blank)
        } else if spells(name, b"cntrl") {
            Some(ClassName::Cntrl)
        } else if spells(name, b"digit") {
            Some(ClassName::Digit)
        } else if spells(name, b"graph") {
            Some(ClassName::Graph)
        } else if spells(name, b"lower") {
            Some(ClassName::Lower)
        } else if spells(name, b"print") {
            Some(ClassName::Print)
        } else if spells(name, b"punct") {
            Some(ClassName::Punct)
        } else if spells(name, b"space") {
            Some(ClassName::Space)
        } else if spells(name, b"upper") {
            Some(ClassName::Upper)
        } else if spells(name, b"xdigit") {
            Some(ClassName::Xdigit)
        } else {
            None
        }
    }

    /// Returns whether the class has a byte.
    fn has(self, byte: u8) -> bool
        ensures { result ≡ named_has self byte }
    {
        match self {
            ClassName::Alnum => byte.is_ascii_alphanumeric(),
            ClassName::Alpha => byte.is_ascii_alphabetic(),
            ClassName::Blank => matches!(byte, b' ' | b'\t'),
            ClassName::Cntrl => byte.is_ascii_control(),
            ClassName::Digit => byte.is_ascii_digit(),
            ClassName::Graph => byte.is_ascii_graphic(),
            ClassName::Lower => byte.is_ascii_lowercase(),
            ClassName::Print => byte == b' ' || byte.is_ascii_graphic(),
            ClassName::Punct => byte.is_ascii_punctuation(),
            ClassName::Space => matches!(byte, b' ' | b'\t' | b'\n' | b'\r'),
            ClassName::Upper => byte.is_ascii_uppercase(),
            ClassName::Xdigit => byte.is_ascii_hexdigit(),
        }
    }
}

impl Item {
    /// Returns whether the item has a byte as it is compared: in lower case, if case is ignored.
    pub fn has(self, ignore_case: bool, byte: u8) -> bool
        ensures { result ≡ item_has ignore_case byte self }
    {
        match self {
            Item::Member(member) => byte == member,
            Item::Range(x, y) => {
                let upper = byte.to_ascii_uppercase();
                (x <= byte && byte <= y) || (ignore_case && x <= upper && upper <= y)
            }
            Item::Named(name) => {
                name.has(byte) || (ignore_case && name.has(byte.to_ascii_uppercase()))
            }
        }
    }
}

/// Returns the range from `x` to `y`, with `more` bytes after its `-`.
fn range(x: u8, y: u8, more: usize) -> ItemAt
    ensures { result ≡ record { item = Range x y; more = more; last = None } }
{
    ItemAt {
        item: Item::Range(x, y),
        more,
        last: None,
    }
}

/// Returns the byte as an item, with `more` bytes after its first.
fn member(c: u8, more: usize) -> ItemAt
    ensures { result ≡ record { item = Member c; more = more; last = Some c } }
{
    ItemAt {
        item: Item::Member(c),
        more,
        last: Some(c),
    }
}

/// Returns the range from `x` whose end is escaped, where `cs` follows the `\`.
fn escaped_range_at(x: u8, cs: &[u8]) -> Option<ItemAt>
    ensures value { result ≡ escaped_range_at x cs.now }
    ensures within { IfSome result (λ i. i.more ≤ length cs.now + 1) }
{
    match cs {
        [] => None,
        [y, ..] => Some(range(x, *y, 2)),
    }
}

/// Returns the item at a `-` that follows the byte `x`, before `cs`.
fn hyphen_at(x: u8, cs: &[u8]) -> Option<ItemAt>
    ensures value { result ≡ hyphen_at x cs.now }
    ensures within { IfSome result (λ i. i.more ≤ length cs.now) }
{
    match cs {
        [] => None,
        [y, after @ ..] => match *y {
            b']' => Some(member(b'-', 0)),
            b'\\' => escaped_range_at(x, after),
            _ => Some(range(x, *y, 1)),
        },
    }
}

/// Returns the item at a `[:` that the `]` after `body` follows.
fn name_at(body: &[u8]) -> Option<ItemAt>
    ensures value { result ≡ name_at body.now }
    ensures within { IfSome result (λ i. i.more ≤ length body.now + 2) }
{
    match before_last(b':', body) {
        None => Some(member(b'[', 0)),
        Some(name) => match ClassName::of(name) {
            None => None,
            Some(name) => Some(ItemAt {
                item: Item::Named(name),
                more: body.len() + 2,
                last: None,
            }),
        },
    }
}

/// Returns the item at a `[` inside a class, before `cs`. `closer` is where the first `]` of `cs` is.
fn bracket_at(cs: &[u8], closer: Option<usize>) -> Option<ItemAt>
    requires { closer ≡ position (λ d. d == 93) cs.now }
    ensures value { result ≡ bracket_at cs.now }
    ensures within { IfSome result (λ i. i.more ≤ length cs.now) }
{
    match cs {
        [b':', after @ ..] => match closer {
            None => None,
            Some(closer) => name_at(after.split_at(closer - 1).0),
        },
        _ => Some(member(b'[', 0)),
    }
}

/// Returns the item at a `\` inside a class, before `cs`.
fn escape_at(cs: &[u8]) -> Option<ItemAt>
    ensures value { result ≡ escape_at cs.now }
    ensures within { IfSome result (λ i. i.more ≤ length cs.now) }
{
    match cs {
        [] => None,
        [c, ..] => Some(member(*c, 1)),
    }
}

/// Returns the item at `c` inside a class, before `cs`, where a `-` can make a range from `last`. `closer` is where the first `]`
/// of `cs` is.
#[tactic(auto, unfolding(crate::specs::Classes::item_at))]
pub fn item_at(last: Option<u8>, c: u8, cs: &[u8], closer: Option<usize>) -> Option<ItemAt>
    requires { closer ≡ position (λ d. d == 93) cs.now }
    ensures value { result ≡ item_at last c cs.now }
    ensures within { IfSome result (λ i. i.more ≤ length cs.now) }
{
    match c {
        b'\\' => escape_at(cs),
        b'[' => bracket_at(cs, closer),
        b'-' => match last {
            None => Some(member(b'-', 0)),
            Some(x) => hyphen_at(x, cs),
        },
        _ => Some(member(c, 0)),
    }
}
