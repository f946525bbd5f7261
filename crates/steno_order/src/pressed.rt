//! The state between two characters of a stroke's text.

ghost use Rattle.std.specs.Prelude.{◌≡◌, ◌≤◌, IfSome, SomeIff};
ghost use Rattle.steno_rules.specs.Outlines.{IsStroke};
ghost use Rattle.steno_order.specs.inside.Steps.{after_character, divided};

use crate::keys::next_key;
use stroke::Stroke;

/// The keys that the first characters of a text press, and what may follow.
#[derive(Clone, Copy)]
pub(crate) struct Pressed {
    /// The keys as a code; a digit's number bar is among them.
    code: u32,
    /// The least key that may be pressed next: 0 before the first character, since `#` stands only there.
    next: u8,
    /// Whether a hyphen was read.
    hyphen: bool,
}

impl Pressed {
    /// Before the first character.
    pub(crate) const NONE: Pressed = Pressed {
        code: 0,
        next: 0,
        hyphen: false,
    };

    /// The state after one more character, if it may follow.
    pub(crate) fn press(self, byte: u8) -> Option<Pressed>
        requires { self.next ≤ 23 }
        ensures after { result ≡ after_character self byte }
        ensures next { IfSome result (λ pressed. pressed.next ≤ 23) }
    {
        if byte == b'-' {
            return self.divide();
        }
        let key = next_key(byte, self.next)?;
        Some(Pressed {
            code: self.code | 1 << key | u32::from(byte.is_ascii_digit()),
            next: key + 1,
            hyphen: self.hyphen,
        })
    }

    /// The state after a hyphen: only keys of the right side and the vowels E and U follow.
    fn divide(self) -> Option<Pressed>
        ensures divided { result ≡ divided self }
        ensures next { IfSome result (λ pressed. pressed.next ≤ 23) }
    {
        if self.hyphen || self.next > 13 {
            return None;
        }
        Some(Pressed {
            code: self.code,
            next: self.next.max(11),
            hyphen: true,
        })
    }

    /// The stroke, if a key is pressed.
    pub(crate) fn stroke(self) -> Option<Stroke>
        ensures { SomeIff result (IsStroke self.code) self.code }
    {
        Stroke::new(self.code)
    }
}
