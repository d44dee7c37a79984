//! Normal forms of paths and patterns, in which equal octets are written alike.
//! RFC 9309, section 2.2.2; RFC 3986, section 2.
ghost use Rattle.std.specs.Prelude.{◌≡◌, ◌++◌, ◌∷◌, ◌<◌, ◌≤◌, vec_len, [], drop, take, true, length, IfOk, IfSome, IsTrue, MatchOption};
ghost use Rattle.std.specs.List.{list_any, position};
ghost use Rattle.std.specs.Char.{digit_value, is_digit};
ghost use Rattle.path_normal.specs.Normal.{is_anchored, is_changed, is_gen_delim, is_kept, is_kept_pattern, is_reserved, is_sign, is_sub_delim, is_unreserved, normal, normal_path, normal_pattern, spelled, unanchored, units};

use percent_encoding::percent_encode_byte;
use std::alloc::{AllocError, Global};

// Each octet that a path keeps stands at its own place, and `%` at every other place.
static KEPT_IN_PATHS: [u8; 256] = *b"\
    %%%%%%%%%%%%%%%%%%%%%%%%%%%%%%%%\
    %!%#%%&'()%+,-./0123456789:;%=%?\
    @ABCDEFGHIJKLMNOPQRSTUVWXYZ[%]%_\
    %abcdefghijklmnopqrstuvwxyz%%%~%\
    %%%%%%%%%%%%%%%%%%%%%%%%%%%%%%%%\
    %%%%%%%%%%%%%%%%%%%%%%%%%%%%%%%%\
    %%%%%%%%%%%%%%%%%%%%%%%%%%%%%%%%\
    %%%%%%%%%%%%%%%%%%%%%%%%%%%%%%%%";

// Each octet that a pattern keeps, `*` among them, written as above.
static KEPT_IN_PATTERNS: [u8; 256] = *b"\
    %%%%%%%%%%%%%%%%%%%%%%%%%%%%%%%%\
    %!%#%%&'()*+,-./0123456789:;%=%?\
    @ABCDEFGHIJKLMNOPQRSTUVWXYZ[%]%_\
    %abcdefghijklmnopqrstuvwxyz%%%~%\
    %%%%%%%%%%%%%%%%%%%%%%%%%%%%%%%%\
    %%%%%%%%%%%%%%%%%%%%%%%%%%%%%%%%\
    %%%%%%%%%%%%%%%%%%%%%%%%%%%%%%%%\
    %%%%%%%%%%%%%%%%%%%%%%%%%%%%%%%%";

/// What a text is compared as.
#[derive(Clone, Copy)]
pub(crate) enum Role {
    Path,
    Pattern,
}

/// A unit of a text: an octet, and whether it was escaped.
#[derive(Clone, Copy)]
pub(crate) struct Octet {
    escaped: bool,
    value: u8,
}

/// The normal form of a path, with its query if any.
pub fn normal_path(alloc: Global, path: &[u8]) -> Result<Vec<u8>, AllocError>
    ensures value { IfOk result (λ form. form.items ≡ normal_path path.now) }
    ensures again { IfOk result (λ form. normal_path form.items ≡ form.items) }
{
    let mut form = Vec::with_capacity(alloc, path.len())?;
    push_normal(&mut form, Role::Path, path)?;
    Ok(form)
}

/// The normal form of a pattern, with `*` as the wildcard and a last `$` as the end anchor.
pub fn normal_pattern(alloc: Global, pattern: &[u8]) -> Result<Vec<u8>, AllocError>
    ensures value { IfOk result (λ form. form.items ≡ normal_pattern pattern.now) }
    ensures again { IfOk result (λ form. normal_pattern form.items ≡ form.items) }
{
    let mut form = Vec::with_capacity(alloc, pattern.len())?;
    push_normal_pattern(&mut form, pattern)?;
    Ok(form)
}

/// Appends the normal form of a pattern: at most three octets for each of the pattern's. If memory runs
/// out, a part may have been appended.
pub fn push_normal_pattern(form: &mut Vec<u8>, pattern: &[u8]) -> Result<(), AllocError>
    ensures value { IfOk result (λ _.
        form.new.items ≡ form.old.items ++ normal_pattern pattern.now) }
    ensures grows { vec_len form.old ≤ vec_len form.new }
{
    let (front, anchored) = split_anchor(pattern);
    push_normal(form, Role::Pattern, front)?;
    if anchored {
        form.push(b'$')?;
    }
    Ok(())
}

/// Whether each octet of the pattern but its end anchor is kept as it is written. Such a pattern is in
/// normal form.
pub fn is_kept_pattern(pattern: &[u8]) -> bool
    ensures value { result ≡ is_kept_pattern pattern.now }
    ensures normal { IsTrue result → normal_pattern pattern.now ≡ pattern.now }
{
    !has_changed(split_anchor(pattern).0)
}

fn has_changed(front: &[u8]) -> bool
    ensures { result ≡ list_any (is_changed Role.Pattern) front.now }
{
    front.iter().any(|octet| is_changed_in_pattern(*octet))
}

/// The pattern without a last `$`, and whether it had one.
pub fn split_anchor(pattern: &[u8]) -> (&[u8], bool)
    ensures pattern { result.0.now ≡ unanchored pattern.now }
    ensures anchored { result.1 ≡ is_anchored pattern.now }
{
    match pattern {
        [front @ .., b'$'] => (front, true),
        _ => (pattern, false),
    }
}

fn push_normal(form: &mut Vec<u8>, role: Role, text: &[u8]) -> Result<(), AllocError>
    ensures value { IfOk result (λ _. form.new.items ≡ form.old.items ++ normal role text.now) }
    ensures grows { vec_len form.old ≤ vec_len form.new }
{
    let mut rest = push_kept(form, role, text)?;
    while let Some((unit, after)) = next_unit(rest) {
        push_spelled(form, role, unit)?;
        rest = push_kept(form, role, after)?;
    }
    Ok(())
}

// Appends the leading octets that stay unchanged, and returns the rest.
fn push_kept<'a>(form: &mut Vec<u8>, role: Role, text: &'a [u8]) -> Result<&'a [u8], AllocError>
    ensures value { IfOk result (λ rest.
        form.new.items ++ normal role rest.now ≡ form.old.items ++ normal role text.now) }
    ensures left { IfOk result (λ rest. length rest.now ≤ length text.now) }
    ensures grows { vec_len form.old ≤ vec_len form.new }
{
    let (kept, rest) = text.split_at(kept_len(role, text));
    form.extend_from_slice(kept)?;
    Ok(rest)
}

fn kept_len(role: Role, text: &[u8]) -> usize
    ensures normal { normal role text.now
        ≡ take result text.now ++ normal role (drop result text.now) }
    ensures within { result ≤ length text.now }
{
    match changed_place(role, text) {
        Some(place) => place,
        None => text.len(),
    }
}

fn changed_place(role: Role, text: &[u8]) -> Option<usize>
    ensures place { result ≡ position (is_changed role) text.now }
    ensures within { IfSome result (λ place. place < length text.now) }
{
    text.iter().position(|octet| is_changed(role, *octet))
}

// Whether the octet begins an escape, or is written as one.
fn is_changed(role: Role, octet: u8) -> bool
    ensures { result ≡ is_changed role octet }
{
    match role {
        Role::Path => is_changed_in_path(octet),
        Role::Pattern => is_changed_in_pattern(octet),
    }
}

fn is_changed_in_path(octet: u8) -> bool
    ensures { result ≡ is_changed Role.Path octet }
{
    KEPT_IN_PATHS[octet as usize] == b'%'
}

fn is_changed_in_pattern(octet: u8) -> bool
    ensures { result ≡ is_changed Role.Pattern octet }
{
    KEPT_IN_PATTERNS[octet as usize] == b'%'
}

fn next_unit(text: &[u8]) -> Option<(Octet, &[u8])>
    ensures { MatchOption result (text.now ≡ []) (λ found.
        (units text.now ≡ found.0 ∷ units found.1.now) × (length found.1.now < length text.now)) }
{
    match text {
        [] => None,
        [b'%', high, low, rest @ ..] if is_hex(*high) && is_hex(*low) => {
            let value = 16 * hex_value(*high) + hex_value(*low);
            let unit = Octet {
                escaped: true,
                value,
            };
            Some((unit, rest))
        }
        [octet, rest @ ..] => {
            let unit = Octet {
                escaped: false,
                value: *octet,
            };
            Some((unit, rest))
        }
    }
}

fn push_spelled(form: &mut Vec<u8>, role: Role, unit: Octet) -> Result<(), AllocError>
    ensures value { IfOk result (λ _. form.new.items ≡ form.old.items ++ spelled role unit) }
    ensures grows { vec_len form.old ≤ vec_len form.new }
{
    if is_kept(role, unit) {
        form.push(unit.value)?;
        return Ok(());
    }
    form.extend_from_slice(percent_encode_byte(unit.value).as_bytes())
}

fn is_kept(role: Role, unit: Octet) -> bool
    ensures { result ≡ is_kept role unit }
{
    is_unreserved(unit.value)
        || (!unit.escaped && is_reserved(unit.value) && !is_sign(role, unit.value))
}

/// Whether the octet is a letter, a digit or one of `-._~`, which a URI may contain unescaped (RFC 3986,
/// 2.3).
pub fn is_unreserved(octet: u8) -> bool
    ensures { result ≡ is_unreserved octet }
{
    octet.is_ascii_alphanumeric() || matches!(octet, b'-' | b'.' | b'_' | b'~')
}

fn is_reserved(octet: u8) -> bool
    ensures { result ≡ is_reserved octet }
{
    is_gen_delim(octet) || is_sub_delim(octet)
}

fn is_gen_delim(octet: u8) -> bool
    ensures { result ≡ is_gen_delim octet }
{
    matches!(octet, b':' | b'/' | b'?' | b'#' | b'[' | b']' | b'@')
}

fn is_sub_delim(octet: u8) -> bool
    ensures { result ≡ is_sub_delim octet }
{
    matches!(
        octet,
        b'!' | b'$' | b'&' | b'\'' | b'(' | b')' | b'*' | b'+' | b',' | b';' | b'='
    )
}

fn is_sign(role: Role, octet: u8) -> bool
    ensures { result ≡ is_sign role octet }
{
    match role {
        Role::Path => octet == b'$' || octet == b'*',
        Role::Pattern => octet == b'$',
    }
}

fn is_hex(digit: u8) -> bool
    ensures { result ≡ is_digit digit 16 }
{
    char::from(digit).is_digit(16)
}

fn hex_value(digit: u8) -> u8
    requires { IsTrue (is_digit digit 16) }
    ensures value { result ≡ digit_value digit }
    ensures bound { result < 16 }
{
    char::from(digit).to_digit(16).unwrap() as u8
}
