//! Comments in a script: from `#` at a line's front, or behind a blank, to its end.

use crate::script_word::cut_word;

/// Whether what stands behind the first word of a line may hold any word: then a `#` is one of it.
fn takes_any(line: &[u8]) -> bool {
    let (word, _) = cut_word(line);
    matches!(word, b"orders" | b"prepared" | b"outside")
}

/// How many bytes of a line stand in front of its comment; `None` where it has none.
fn comment_at(line: &[u8]) -> Option<usize> {
    let mut is_blank = true;
    for (index, b) in line.iter().enumerate() {
        if *b == b'#' && is_blank {
            return Some(index);
        }
        is_blank = *b == b' ' || *b == b'\t';
    }
    None
}

/// A line without its comment and the blanks in front of that; `None` where the line has no comment.
pub(crate) fn without_comment(line: &[u8]) -> Option<&[u8]> {
    if takes_any(line) {
        return None;
    }
    let (front, _) = line.split_at_checked(comment_at(line)?)?;
    Some(front.trim_ascii_end())
}
