//! Texts of parts, made without memory.

/// The text of these parts: texts, numbers, and lines of a head.
macro_rules! written {
    ($($kind:ident $part:expr),*) => {{
        let mut all = ArrayString::new();
        $(written!(all: $kind $part);)*
        all
    }};
    ($all:ident: text $part:expr) => {
        $all.push_str($part)
    };
    ($all:ident: number $part:expr) => {
        push_number(&mut $all, $part)
    };
    ($all:ident: length $part:expr) => {
        push_length(&mut $all, $part)
    };
    ($all:ident: extra $part:expr) => {
        push_extra(&mut $all, $part)
    };
}

pub(crate) use written;
