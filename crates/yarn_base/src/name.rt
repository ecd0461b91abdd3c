//! Which texts are names of nodes, functions and variables.
ghost use Rattle.std.specs.Prelude.{◌≡◌};
ghost use Rattle.std.specs.Str.{chars};
ghost use Rattle.std.specs.List.{list_all};
ghost use Rattle.yarn_base.specs.Name.{is_name_of, is_variable_of, starts_name, continues_name};

use crate::Text;

/// Whether the text is a name: `_` or a character that may start an identifier (XID_Start of Unicode), and then
/// characters that may continue one (XID_Continue) or dots. The rule is docs/language.md, "Nodes".
pub fn is_name(text: &Text) -> bool
    ensures { result ≡ is_name_of (chars text.now) }
{
    is_name_str(text.as_str())
}

/// Whether the text is a variable: `$` and a name. The rule is docs/language.md, "Nodes".
pub fn is_variable(text: &Text) -> bool
    ensures { result ≡ is_variable_of (chars text.now) }
{
    is_variable_str(text.as_str())
}

/// Whether a piece of a text is a name, as [`is_name`] says it.
#[tactic(auto, using(std::proofs::lemmas::Str::chars_past_char))]
pub fn is_name_str(text: &str) -> bool
    ensures { result ≡ is_name_of (chars text.now) }
{
    let mut all = text.chars();
    match all.next() {
        None => false,
        Some(first) => starts(first) && all_continue(all.as_str()),
    }
}

#[tactic(auto, using(std::proofs::lemmas::Str::chars_past_char))]
fn is_variable_str(text: &str) -> bool
    ensures { result ≡ is_variable_of (chars text.now) }
{
    let mut all = text.chars();
    match all.next() {
        Some('$') => is_name_str(all.as_str()),
        _ => false,
    }
}

fn starts(c: char) -> bool
    ensures { result ≡ starts_name c }
{
    unicode_ident::is_xid_start(c) || c == '_'
}

fn all_continue(rest: &str) -> bool
    ensures { result ≡ list_all continues_name (chars rest.now) }
{
    rest.chars()
        .all(|c| unicode_ident::is_xid_continue(c) || c == '.')
}
