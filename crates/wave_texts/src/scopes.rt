//! Names in a waveform: the scopes of a name, and what is behind its last dot.

ghost use Rattle.std.specs.Prelude.{◌≡◌, ◌≤◌, ◌++◌, ◌∷◌, [], OnOk, length, map};
ghost use Rattle.wave_texts.specs.Scopes.{alike as alike_of, closed, common as common_of, moved, opened, part_text, path_length as path_length_of, printable as printable_of, scope_text, start_text, up_text};

use base::{Refused, extend, push};

/// A byte of a name as it is put.
fn printable(byte: u8) -> u8
    ensures { result ≡ printable_of byte }
{
    if byte <= 32 {
        return b'_';
    }
    if byte < 127 { byte } else { b'_' }
}

/// Adds a backslash where a part of a name begins with a dollar sign.
fn push_escape(text: &mut Vec<u8>, first: u8) -> Result<(), Refused>
    ensures { OnOk result (text.new.items ≡ text.old.items ++ start_text (first ∷ [])) }
{
    if first == b'$' {
        push(text, b'\\')?;
    }
    Ok(())
}

/// Adds what stands before a part of a name.
fn push_start(text: &mut Vec<u8>, part: &[u8]) -> Result<(), Refused>
    ensures { OnOk result (text.new.items ≡ text.old.items ++ start_text part.now) }
{
    match part {
        [] => push(text, b'_'),
        [first, ..] => push_escape(text, *first),
    }
}

/// Adds the bytes of a part of a name.
fn push_bytes(text: &mut Vec<u8>, part: &[u8]) -> Result<(), Refused>
    ensures { OnOk result (text.new.items ≡ text.old.items ++ map printable_of part.now) }
{
    for byte in part {
        push(text, printable(*byte))?;
    }
    Ok(())
}

/// Adds a part of a name.
pub fn push_part(text: &mut Vec<u8>, part: &[u8]) -> Result<(), Refused>
    ensures { OnOk result (text.new.items ≡ text.old.items ++ part_text part.now) }
{
    push_start(text, part)?;
    push_bytes(text, part)?;
    Ok(())
}

/// Adds the beginning of a scope.
fn push_scope(text: &mut Vec<u8>, part: &[u8]) -> Result<(), Refused>
    ensures { OnOk result (text.new.items ≡ text.old.items ++ scope_text part.now) }
{
    extend(text, b"$scope module ")?;
    push_part(text, part)?;
    extend(text, b" $end\n")?;
    Ok(())
}

/// Adds the beginnings of a path's scopes.
fn push_opened(text: &mut Vec<u8>, path: &[u8]) -> Result<(), Refused>
    ensures { OnOk result (text.new.items ≡ text.old.items ++ opened path.now) }
{
    let mut first = 0;
    for (k, byte) in path.iter().enumerate() {
        if *byte == b'.' {
            push_scope(text, &path[first..k])?;
            first = k + 1;
        }
    }
    Ok(())
}

/// Adds the end of a scope where the byte is a dot.
fn push_up(text: &mut Vec<u8>, byte: u8) -> Result<(), Refused>
    ensures { OnOk result (text.new.items ≡ text.old.items ++ up_text byte) }
{
    if byte == b'.' {
        extend(text, b"$upscope $end\n")?;
    }
    Ok(())
}

/// Adds the ends of a path's scopes.
pub fn push_closed(text: &mut Vec<u8>, path: &[u8]) -> Result<(), Refused>
    ensures { OnOk result (text.new.items ≡ text.old.items ++ closed path.now) }
{
    for byte in path {
        push_up(text, *byte)?;
    }
    Ok(())
}

/// How much of a name is its path: up to its last dot, this one included.
pub fn path_length(name: &[u8]) -> usize
    ensures is { result ≡ path_length_of name.now }
    ensures within { result ≤ length name.now }
{
    for k in (0..name.len()).rev() {
        if name[k] == b'.' {
            return k + 1;
        }
    }
    0
}

/// How many bytes two paths begin with alike.
fn alike(before: &[u8], path: &[u8]) -> usize
    ensures is { result ≡ alike_of before.now path.now }
    ensures within { (result ≤ length before.now) × (result ≤ length path.now) }
{
    let most = before.len().min(path.len());
    for k in 0..most {
        if before[k] != path[k] {
            return k;
        }
    }
    most
}

/// How much of two paths is their common path.
fn common(before: &[u8], path: &[u8]) -> usize
    ensures is { result ≡ common_of before.now path.now }
    ensures within { (result ≤ length before.now) × (result ≤ length path.now) }
{
    path_length(&path[..alike(before, path)])
}

/// Adds the way from the scopes of one path to those of another.
pub fn push_moved(text: &mut Vec<u8>, before: &[u8], path: &[u8]) -> Result<(), Refused>
    ensures { OnOk result (text.new.items ≡ text.old.items ++ moved before.now path.now) }
{
    let common = common(before, path);
    push_closed(text, &before[common..])?;
    push_opened(text, &path[common..])?;
    Ok(())
}
