//! Options that are given more than once.

use crate::commands::{Form, SubcommandRow, row_of};
use std::alloc::{AllocError, Global};

// An option among the words of a command line, or another word.
#[derive(Clone, Copy)]
struct Use<'a> {
    // Where it stands, and the end of its words.
    from: usize,
    end: usize,
    // The option of which the last use counts; None for a word that stays.
    option: Option<&'a str>,
}

/// The words of a command line without the earlier uses of an option that is given more than once, so that a wrapper can set what another
/// use replaces. The uses of `--listen` and `--unix` add up. What is no option of the command stays as it is.
pub fn last_given<'a>(alloc: Global, words: &[&'a str]) -> Result<Vec<&'a str>, AllocError> {
    let Some(row) = words.get(1).and_then(|name| row_of(name)) else {
        return Vec::from_slice(alloc, words);
    };
    let mut kept = Vec::with_capacity(alloc, words.len())?;
    kept.extend_from_slice(words.get(..2).unwrap_or(words))?;
    let mut at = 2;
    for _ in 0..words.len() {
        let Some(this) = use_at(row, words, at) else {
            break;
        };
        if !is_given_after(row, words, this) {
            kept.extend_from_slice(words.get(this.from..this.end).unwrap_or(&[]))?;
        }
        at = this.end;
    }
    Ok(kept)
}

// Whether the option of a use is given again after it.
fn is_given_after<'a>(row: &SubcommandRow<'_>, words: &[&'a str], this: Use<'a>) -> bool {
    let Some(option) = this.option else {
        return false;
    };
    let mut at = this.end;
    for _ in 0..words.len() {
        let Some(later) = use_at(row, words, at) else {
            return false;
        };
        if later.option == Some(option) {
            return true;
        }
        at = later.end;
    }
    false
}

// What begins at this place; None at the end. After `--` no word is an option.
fn use_at<'a>(row: &SubcommandRow<'_>, words: &[&'a str], at: usize) -> Option<Use<'a>> {
    let word = words.get(at)?;
    let whole = Use {
        from: at,
        end: at.saturating_add(1),
        option: None,
    };
    if *word == "--" {
        return Some(Use {
            end: words.len(),
            ..whole
        });
    }
    let Some(text) = word.strip_prefix("--") else {
        return Some(whole);
    };
    let (name, is_alone) = match text.split_once('=') {
        Some((name, _)) => (name, false),
        None => (text, true),
    };
    let Some(form) = row.form_of(name) else {
        return Some(whole);
    };
    let has_value = !matches!(form, Form::Flag | Form::ShortFlag(_));
    let end = if has_value && is_alone {
        at.saturating_add(2)
    } else {
        at.saturating_add(1)
    };
    Some(Use {
        from: at,
        end: end.min(words.len()),
        option: if matches!(form, Form::Texts(_)) {
            None
        } else {
            Some(name)
        },
    })
}
