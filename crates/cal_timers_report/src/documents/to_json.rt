//! Types whose values can be written as JSON, and the parts of a document that all verbs share.

ghost use Rattle.std.specs.Prelude.{◌≡◌, ◌++◌, ◌∷◌, [], ℕ, ℤ, Bool, List, Option, IfOk, OnOk, codes, map, option_map, string_bytes};
ghost use Rattle.json.specs.Json.{Json, boolean, null, string};
ghost use Rattle.json.specs.Token.{key};
ghost use Rattle.json.specs.Tree.{json_tokens};
ghost use Rattle.json.specs.Layout.{pretty};
ghost use Rattle.cal_timers_report.specs.rules.JsonParts.{integer, natural, list_of, or_null};

use json::{Pretty, Token};
use std::alloc::AllocError;

/// A type whose values can be written as JSON.
pub(crate) trait ToJson {
    /// The type of a value's plain data.
    ghost Shown: { Type 0 };

    /// Returns the plain data of a value: what a document says about the value.
    ghost shown: { Self → Shown };

    /// Returns the JSON value that is written for the plain data.
    ghost json: { Shown → Json };

    /// Writes the tokens of the value's JSON. Fails only if allocation fails.
    fn put(&self, out: &mut Pretty) -> Result<(), AllocError>
        ensures { OnOk result (out.new ≡ out.old ++ json_tokens (json (shown self.now))) };
}

impl ToJson for String {
    ghost Shown = { List ℕ };

    ghost shown = { string_bytes };

    ghost json = { string };

    fn put(&self, out: &mut Pretty) -> Result<(), AllocError> {
        out.token(Token::String(self.as_str()))
    }
}

impl ToJson for &str {
    ghost Shown = { List ℕ };

    ghost shown = { λ text. text.now };

    ghost json = { string };

    fn put(&self, out: &mut Pretty) -> Result<(), AllocError> {
        out.token(Token::String(self))
    }
}

impl ToJson for bool {
    ghost Shown = { Bool };

    ghost shown = { λ b. b };

    ghost json = { boolean };

    fn put(&self, out: &mut Pretty) -> Result<(), AllocError> {
        out.token(Token::Bool(*self))
    }
}

impl ToJson for u32 {
    ghost Shown = { ℕ };

    ghost shown = { λ n. n };

    ghost json = { natural };

    fn put(&self, out: &mut Pretty) -> Result<(), AllocError> {
        put_natural(out, *self)
    }
}

pub(crate) fn put_signed(out: &mut Pretty, value: i64) -> Result<(), AllocError>
    ensures { OnOk result (out.new ≡ out.old ++ json_tokens (integer value)) }
{
    let mut buffer = itoa::Buffer::new();
    out.token(Token::Number(buffer.format(value)))
}

fn put_natural(out: &mut Pretty, value: u32) -> Result<(), AllocError>
    ensures { OnOk result (out.new ≡ out.old ++ json_tokens (natural value)) }
{
    let mut buffer = itoa::Buffer::new();
    out.token(Token::Number(buffer.format(value)))
}

impl ToJson for Option<u32> {
    ghost Shown = { Option ℕ };

    ghost shown = { λ o. o };

    ghost json = { or_null natural };

    fn put(&self, out: &mut Pretty) -> Result<(), AllocError> {
        match self {
            Some(value) => put_natural(out, *value),
            None => out.token(Token::Null),
        }
    }
}

impl ToJson for Option<&str> {
    ghost Shown = { Option (List ℕ) };

    ghost shown = { option_map (λ text. text.now) };

    ghost json = { or_null string };

    fn put(&self, out: &mut Pretty) -> Result<(), AllocError> {
        match self {
            Some(text) => out.token(Token::String(text)),
            None => out.token(Token::Null),
        }
    }
}

impl<T: ToJson> ToJson for Vec<T> {
    ghost Shown = { List T.Shown };

    ghost shown = { λ values. map T.shown values.items };

    ghost json = { list_of T.json };

    fn put(&self, out: &mut Pretty) -> Result<(), AllocError> {
        put_list(out, self.as_slice())
    }
}

fn put_list<T: ToJson>(out: &mut Pretty, values: &[T]) -> Result<(), AllocError>
    ensures { OnOk result (out.new ≡ out.old ++ json_tokens (list_of T.json (map T.shown values.now))) }
{
    out.token(Token::BeginArray)?;
    for value in values {
        value.put(out)?;
    }
    out.token(Token::EndArray)
}

/// Writes a member of an object: the name, and then the value.
pub(crate) fn put_member<T: ToJson>(
    out: &mut Pretty,
    name: &str,
    value: &T,
) -> Result<(), AllocError>
    ensures { OnOk result (out.new ≡ out.old ++ key name.now ∷ [] ++ json_tokens (T.json (T.shown value.now))) }
{
    out.token(Token::Key(name))?;
    value.put(out)
}

/// Writes a member of an object, with the value `null`.
pub(crate) fn put_null(out: &mut Pretty, name: &str) -> Result<(), AllocError>
    ensures { OnOk result (out.new ≡ out.old ++ key name.now ∷ [] ++ json_tokens null) }
{
    out.token(Token::Key(name))?;
    out.token(Token::Null)
}

/// Returns the document with the tokens that were written.
pub(crate) fn document_text(out: Pretty) -> Result<String, AllocError>
    ensures { IfOk result (λ text. string_bytes text ≡ pretty out ++ codes "\n") }
{
    let Ok(mut text) = String::from_utf8(out.into_inner()) else {
        return Err(AllocError);
    };
    text.push('\n')?;
    Ok(text)
}
