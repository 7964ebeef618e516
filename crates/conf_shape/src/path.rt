//! Places in a configuration.

ghost use Rattle.std.specs.Prelude.{◌≡◌, ◌++◌, [], string_bytes, OnOk, IfOk};
ghost use Rattle.std.specs.Prelude.{decimal};
ghost use Rattle.conf_shape.specs.Pointer.{escape, escape_char, member_of, element_of};
ghost use Rattle.conf_shape.specs.Path.{pointer_of};

use pdata_value::Text;
use std::alloc::{AllocError, Global};
use std::fmt::Write;

/// The way from the top to a place, the last step first.
#[derive(Clone, Copy)]
pub enum Path<'a> {
    Top,
    Member(&'a Path<'a>, &'a str),
    Element(&'a Path<'a>, usize),
}

impl<'a> Path<'a> {
    /// The whole configuration.
    pub fn top() -> Path<'a>
        ensures { pointer_of result ≡ [] }
    {
        Path::Top
    }

    /// A member of the object at the place.
    pub fn member(&'a self, name: &'a str) -> Path<'a>
        ensures { pointer_of result ≡ member_of (pointer_of self.entry.now) name.now }
    {
        Path::Member(self, name)
    }

    /// An element of the list at the place.
    pub fn element(&'a self, index: usize) -> Path<'a>
        ensures { pointer_of result ≡ element_of (pointer_of self.entry.now) index }
    {
        Path::Element(self, index)
    }

    /// The place as a JSON Pointer.
    pub fn text(&'a self, alloc: Global) -> Result<Text, AllocError>
        ensures { IfOk result (λ text. text ≡ pointer_of self.entry.now) }
    {
        let mut out = String::new(alloc);
        push_path(&mut out, self)?;
        Ok(Text::from_string(out))
    }
}

fn push_path<'a>(out: &mut String, path: &'a Path<'a>) -> Result<(), AllocError>
    ensures { OnOk result (string_bytes out.new ≡ string_bytes out.old ++ pointer_of path.now) }
{
    match path {
        Path::Top => Ok(()),
        Path::Member(above, key) => {
            push_path(out, above)?;
            out.push('/')?;
            push_escaped(out, key)
        }
        Path::Element(above, index) => {
            push_path(out, above)?;
            out.push('/')?;
            push_number(out, *index)
        }
    }
}

fn push_number(out: &mut String, number: usize) -> Result<(), AllocError>
    ensures { OnOk result (string_bytes out.new ≡ string_bytes out.old ++ decimal number) }
{
    write!(out, "{number}").map_err(|_| AllocError)
}

fn push_escaped(out: &mut String, key: &str) -> Result<(), AllocError>
    ensures { OnOk result (string_bytes out.new ≡ string_bytes out.old ++ escape key.now) }
{
    for c in key.chars() {
        push_char(out, c)?;
    }
    Ok(())
}

fn push_char(out: &mut String, c: char) -> Result<(), AllocError>
    ensures { OnOk result (string_bytes out.new ≡ string_bytes out.old ++ escape_char c) }
{
    match c {
        '~' => out.push_str("~0"),
        '/' => out.push_str("~1"),
        _ => out.push(c),
    }
}
