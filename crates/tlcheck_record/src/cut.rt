//! A text cut at its first byte of a kind, and a line cut into its words.
ghost use Rattle.std.specs.Prelude.{◌≡◌, ◌<◌, ◌∷◌, ◌==◌, IfSome};
ghost use Rattle.std.specs.List.{position_or_len};
ghost use Rattle.tl_script_words.specs.Words.{texts, words_of};
ghost use Rattle.tlcheck_record.specs.Parts.{parts_in, parts_of};

use arrayvec::ArrayVec;

/// How many bytes are looked at one by one, before a text is searched: most parts are no longer.
const NEAR: usize = 24;

/// How many bytes stand before the first of these, or in all.
fn first_len(text: &[u8], mark: u8) -> usize
    ensures { result ≡ position_or_len (λ b. b == mark) text.now }
{
    text.iter().take_while(|byte| **byte != mark).count()
}

/// The same, where that is near; else it is not near.
fn near_len(text: &[u8], mark: u8) -> usize
    ensures { result < NEAR → result ≡ position_or_len (λ b. b == mark) text.now }
{
    let end = text.len().min(NEAR);
    first_len(&text[..end], mark)
}

/// The same by a search, which is quick where that is far.
fn far_len(text: &str, mark: u8) -> usize
    requires { mark < 128 }
    ensures { result ≡ position_or_len (λ b. b == mark) text.now }
{
    match text.split_once(mark as char) {
        Some((part, _)) => part.len(),
        None => text.len(),
    }
}

/// How many bytes stand before the first of these, or in all, near or far.
fn part_len(text: &str, mark: u8) -> usize
    requires { mark < 128 }
    ensures { result ≡ position_or_len (λ b. b == mark) text.now }
{
    let near = near_len(text.as_bytes(), mark);
    if near < NEAR {
        near
    } else {
        far_len(text, mark)
    }
}

/// What stands before the first of these, and what stands behind it, where there is one.
pub fn cut_at(text: &str, mark: u8) -> (&str, Option<&str>)
    requires { mark < 128 }
    ensures { parts_of mark text.now ≡ result.0.now ∷ parts_in mark result.1 }
{
    let end = part_len(text, mark);
    if end < text.len() {
        (&text[..end], Some(&text[end + 1..]))
    } else {
        (text, None)
    }
}

/// The words of a line, where they are no more than `N`.
pub fn few_words<const N: usize>(line: &str) -> Option<ArrayVec<&str, N>>
    ensures { IfSome result (λ words. texts words.items ≡ words_of line.now) }
{
    let mut words = ArrayVec::new();
    let mut rest = line;
    for number in 0..N {
        let (word, after) = cut_at(rest, b' ');
        if words.try_push(word).is_err() {
            return None;
        }
        match after {
            Some(text) => rest = text,
            None => return Some(words),
        }
    }
    None
}
