use crate::pieces::pieces_of;
use crate::trouble::Trouble;
use std::alloc::Global;

/// One case: what is asked, its name, the words behind it, and its rows.
#[derive(Clone, Copy)]
pub struct Case<'a> {
    /// All paragraphs, among which the bases stand.
    pub all: &'a str,
    pub kind: &'a str,
    pub name: &'a str,
    pub words: &'a str,
    pub rows: &'a str,
}

impl<'a> Case<'a> {
    /// The case of this paragraph. A paragraph of notes or bases alone has none.
    pub fn new(all: &'a str, paragraph: &'a str) -> Option<Case<'a>> {
        let mut left = paragraph;
        for _line in paragraph.lines() {
            let (line, rows) = first_line(left);
            if !is_aside(line) {
                let (kind, behind) = first_word(line);
                let (name, words) = first_word(behind);
                return Some(Case {
                    all,
                    kind,
                    name,
                    words,
                    rows,
                });
            }
            left = rows;
        }
        None
    }

    /// The rows' bytes, one after the other.
    pub fn bytes(&self, alloc: Global) -> Result<Vec<u8>, Trouble> {
        pieces_of(alloc, self.all, self.rows)
    }

    /// The same case with other rows.
    pub fn with_rows(&self, rows: &'a str) -> Case<'a> {
        Case { rows, ..*self }
    }

    /// The base of that name.
    pub fn base(&self, alloc: Global, name: &str) -> Result<&'a str, Trouble> {
        base_of(alloc, self.all, name)
    }
}

/// Whether the line is a note, a base or empty.
fn is_aside(line: &str) -> bool {
    line.is_empty() || line.starts_with("#") || line.starts_with("= ")
}

/// The text up to the first blank, and what stands behind it.
pub fn first_word(text: &str) -> (&str, &str) {
    match text.split_once(' ') {
        Some((word, behind)) => (word, behind),
        None => (text, ""),
    }
}

/// The text up to the first LF, and what stands behind it.
pub fn first_line(text: &str) -> (&str, &str) {
    match text.split_once('\n') {
        Some((line, behind)) => (line, behind),
        None => (text, ""),
    }
}

/// The base of this name: what stands on a line `= NAME TEXT`.
pub fn base_of<'a>(alloc: Global, all: &'a str, name: &str) -> Result<&'a str, Trouble> {
    let head = format!(in alloc; "\n= {name} ")?;
    match all.split_once(head.as_str()) {
        Some((_, behind)) => {
            let (base, _rest) = first_line(behind);
            Ok(base)
        }
        None => Err(Trouble::Case("no such base")),
    }
}

/// A number that is written in decimal.
pub fn number_of(text: &str) -> Result<u64, Trouble> {
    match text.parse() {
        Ok(number) => Ok(number),
        Err(_) => Err(Trouble::Case("no number")),
    }
}
